//! The texts of the help.

ghost use Rattle.std.specs.Prelude.{◌≡◌};
ghost use Rattle.command_line.specs.Asked.{page_of};

use crate::subcommands::Subcommand;

/// The text that `--help` prints.
pub const HELP: &str = "\
bureau: a punched-card bureau on a verified IBM 1401.

usage: bureau SUBCOMMAND ARGUMENTS..

  run DECK SIZE SWITCHES       runs the deck in the file DECK
  assemble IN OUT              assembles the source in IN into a deck, OUT
  init FILE                    makes FILE, a new bureau without jobs
  apply FILE SCRIPT            carries out the commands in the file SCRIPT
  serve FILE PORT COUNT        answers COUNT requests over HTTP, one by one
  export FILE CUSTOMER NUMBER  writes what a job made to five files here
  migrate FILE                 makes a file of an earlier version one of this

  bureau < DECK                runs DECK with SIZE 4000 and SWITCHES A
  bureau SUBCOMMAND --help     prints the help of one subcommand (or -h)
  bureau --help                prints this text (or -h)
  bureau --version             prints the version, and the logic of its proof

DECK, IN  a deck as text: on each line one card, its 80 columns as glyphs; at
          most 2,000 cards. workbench punch makes one of a text with small
          letters, tabs or short lines
SIZE      the machine's positions of storage: 1400, 2000, 4000, 8000, 12000 or
          16000
SWITCHES  the sense switches that are on: rising letters of ABCDEFG, as A or
          BDG, or - for none
FILE      a bureau's file: it keeps all jobs, what was punched and printed, and
          how far each ran; after a stop, FILE-wal beside it is a part of it
CUSTOMER  1 to 12 capitals and digits
NUMBER    the customer's number of a job: 1 to 999999
PORT      1 to 65535, on this computer alone (127.0.0.1)
COUNT     how many connections are served: 1 to 1000000

Where a value begins with a hyphen, put -- after the subcommand:
  bureau run -- -odd.deck 4000 A

examples:
  bureau run examples/two_lines.deck 4000 A
  bureau run examples/two_lines.deck 1400 -
  bureau < examples/two_lines.deck
  bureau assemble examples/two_lines.source two_lines.deck
  bureau init my.bureau
  bureau apply my.bureau examples/two_lines.script
  bureau export my.bureau ACME 9
  bureau serve my.bureau 8014 100

A deck runs for at most 1,000,000 instructions. What it prints goes to standard
output. One line on standard error says how many cards it punched, how many
lines it printed and how it ended:
  cards 0 lines 2 halted next 361
or, in place of `halted next 361`, as `check ADDRESS at 8`, or `running` if all
1,000,000 were used. A source is no deck to run, and mostly ends with `check
INSTRUCTION at 1`: assemble it first.

An Autocoder source ends with its END card; the cards after it are data. Its
listing goes to standard output. OUT gets the cards that load the program, and
the data cards after them: a deck to be run. Where cards are at fault, a line
for each goes to standard output, as `card 2 fault 45`, and OUT is not written.

exit status:
  0  all was done: the machine halted, OUT was written, the script or the
     requests were served
  1  a fault or a refusal was printed, as `card 5 column 1 fault 31` or `refused
     20`, or how the machine ended
  2  the arguments are not as above
  3  the bureau's file could not be used: fault 2, 50 or 51

On a terminal, or where BUREAU_EXPLAIN is set, further lines on standard error
say in words what went wrong, and the way out.

faults and refusals:
  1       there is not enough memory        end other programs, or run it on a
                                            larger computer
  2       the bureau's file failed          FILE is not there (for init: it is,
                                            or FILE-wal or FILE-journal), may
                                            not be used, is open in another
                                            program, as bureau serve or sqlite3,
                                            or the disk is full; what was
                                            answered is in the file
  50      the file is no bureau's           name the right file; if it is one, a
                                            later version of this program made
                                            it
  51      an earlier version made the file  bureau migrate FILE makes it one of
                                            this version
  device  another file, the input, an       it is not there, may not be used, or
          output or the port could not be   the disk is full; OUT is then as it
          used                              was before; of serve: another
                                            program has the port
  13      the deck has no card              name a file with cards
  30      a card has not 80 columns         fill each line up with blanks to 80
                                            characters; at column 81: the line
                                            is longer, or ends in CR LF (make it
                                            LF alone), or the last line has no
                                            end
  31      a character that no card has      use capitals, digits and the signs
                                            of the 64 glyphs; no tab, no small
                                            letter, no accent
  33      more than 2,000 cards             make two decks of it; of assemble:
                                            the loading cards and the data cards
                                            count together
of the cards of a source:
  40      text after a blank in columns     begin the label in column 6, the
          6 to 15 or 16 to 20               operation in column 16 and the
                                            operand in column 21
  41      no such operation                 correct it; make a blank card a
                                            comment, with * in column 6
  42      the operand is wrong              count its parts; look for a missing
                                            @, a second CTL, or an END that has
                                            no address to start at
  43      the label is wrong                one to six letters and digits, a
                                            letter first
  44      the label is used twice           give one of the two cards another
                                            label
  45      no card has this label            correct it; ORG and EQU require it
                                            on an earlier card
  46      an address past the storage       put a CTL with a larger size first,
                                            or a lower ORG
  47      a position below 081              put the program higher: that is
                                            where cards are read
  48      a position is filled twice        correct the ORG before it; the first
                                            to fill it stays
  49      the END card is missing           put one after the last card of the
                                            source
refusals of a bureau, which change nothing:
  10      CUSTOMER is no customer           1 to 12 capitals and digits
  11      NUMBER is no number               1 to 999999
  12      the size is none                  1400, 2000, 4000, 8000, 12000 or
                                            16000
  13      the deck has no card, or more     make two jobs of it
          than 2,000 with its loading cards
  14      the number has another job        give the job another number
  15      the customer has 200 jobs         take another customer's name
  16      the source has faults             correct the cards that the reply
                                            names
  20      there is no such job              list the customer's jobs
  21      the limit is none                 1 to 2000
  22      the job is held                   release it
  23      the job does not run              it is at a halt or a check; start it
                                            at a halt
  24      the job is not at a halt          slice it until it halts; a check
                                            ends a job
  25      the job is held already           there is nothing to do
  26      the job is not held               there is nothing to do
  27      the job is collected              its output is there still; submit it
                                            anew to run it
  28      over 1,000,000,000 are granted    submit it anew, under another number
  29      there is no such pocket           0, 4 or 8 after /cards/
";

/// The text that `run --help` prints.
pub const RUN_HELP: &str = "\
bureau run DECK SIZE SWITCHES: runs the deck in the file DECK.

DECK      a deck as text: on each line one card, its 80 columns as glyphs; at
          most 2,000 cards. workbench punch makes one of a text with small
          letters, tabs or short lines
SIZE      the machine's positions of storage: 1400, 2000, 4000, 8000, 12000 or
          16000
SWITCHES  the sense switches that are on: rising letters of ABCDEFG, as A or
          BDG, or - for none

examples:
  bureau run examples/two_lines.deck 4000 A
  bureau run examples/two_lines.deck 1400 -
  bureau run -- -odd.deck 4000 A

A deck runs for at most 1,000,000 instructions. What it prints goes to standard
output. One line on standard error says how many cards it punched, how many
lines it printed and how it ended:
  cards 0 lines 2 halted next 361
or, in place of `halted next 361`, as `check ADDRESS at 8`, or `running` if all
1,000,000 were used. A source is no deck to run, and mostly ends with `check
INSTRUCTION at 1`: `bureau assemble` makes a deck of it.

Status 0: the machine halted. Status 1: it did not, or a fault was printed.
Status 2: the arguments are not as above. `bureau --help` lists the faults.
";

/// The text that `assemble --help` prints.
pub const ASSEMBLE_HELP: &str = "\
bureau assemble IN OUT: assembles the source in the file IN into a deck in the
file OUT.

IN   a deck as text: on each line one card, its 80 columns as glyphs; at most
     2,000 cards. The source ends with its END card; the cards after it are data
OUT  gets the cards that load the program, and the data cards after them: a deck
     to be run

examples:
  bureau assemble examples/two_lines.source two_lines.deck
  bureau assemble -- -odd.source two_lines.deck

The listing goes to standard output. Where cards are at fault, a line for each
goes there in its place, as `card 2 fault 45`, and OUT is not written.

Status 0: OUT was written. Status 1: a fault was printed. Status 2: the
arguments are not as above. `bureau --help` lists the faults.
";

/// The text that `init --help` prints.
pub const INIT_HELP: &str = "\
bureau init FILE: makes FILE, a new bureau without jobs.

FILE  the path of the new file. A file that is there stays as it is, and is
      fault 2; so is a log or a journal, FILE-wal or FILE-journal, which would
      belong to the new file. FILE is there whole or not at all, also where the
      program is stopped; then a file FILE.1.part may be left

example:
  bureau init my.bureau

Status 0: FILE was made. Status 1: there is not enough memory. Status 2: the
arguments are not as above. Status 3: FILE was not made, and `fault 2` was
printed. `bureau --help` lists the faults.
";

/// The text that `apply --help` prints.
pub const APPLY_HELP: &str = "\
bureau apply FILE SCRIPT: carries out the commands in the file SCRIPT, one after
the other.

FILE    the bureau's file, made by `bureau init FILE`
SCRIPT  a command on each line, its words with one blank between them. Each
        line ends in LF alone, the last one too:
          submit CUSTOMER NUMBER KIND SIZE SWITCHES N
                                           and N lines, a card of 80 glyphs each
          slice CUSTOMER NUMBER LIMIT      runs 1 to 2000 instructions
          start CUSTOMER NUMBER SWITCHES   lets a halted job go on
          hold CUSTOMER NUMBER             it does not run then
          release CUSTOMER NUMBER          a held job may run again
          collect CUSTOMER NUMBER          it is done with: it runs no more
          standing CUSTOMER NUMBER         how it stands
          jobs CUSTOMER
          queue
        KIND is object for cards that load themselves, or autocoder for a source

example:
  bureau apply my.bureau examples/two_lines.script

For each command one line is printed, when the command is in the file: `taken
6`, `ran 34 running`, `refused 23`. A script with a line that is no command is
not begun: `bad line 3` is printed then, with the number of the first such line.
A program that is stopped has done the commands whose lines it printed, and at
most one more; `standing` says how far a job came. While it runs, no other
program can use FILE; after it, FILE alone is the whole bureau.

Status 0: each command was done. Status 1: one was refused, or the script is no
script, or there is not enough memory. Status 2: the arguments are not as above.
Status 3: the bureau's file failed. `bureau --help` lists the faults and
refusals.
";

/// The text that `export --help` prints.
pub const EXPORT_HELP: &str = "\
bureau export FILE CUSTOMER NUMBER: writes what a job punched and printed to
five files here.

FILE      the bureau's file
CUSTOMER  the job's customer
NUMBER    the job's number

example:
  bureau export my.bureau ACME 9

It writes ACME-9.cards, a line for each card with three hexadecimal digits a
column; the cards of each pocket alone, ACME-9.cards0, ACME-9.cards4 and
ACME-9.cards8; and ACME-9.lines, the printed lines. Files of these names are
replaced. A file is there whole or not at all.

Status 0: all files were written. Status 1: the job is refused, as `refused 20`,
or a file could not be written. Status 2: the arguments are not as above. Status
3: the bureau's file failed. `bureau --help` lists the faults and refusals.
";

/// The text that `migrate --help` prints.
pub const MIGRATE_HELP: &str = "\
bureau migrate FILE: makes FILE, a bureau's file of an earlier version, one of
this version.

FILE  the bureau's file. All jobs stay as they are, with what they punched and
      printed, and go on as they began, without stacker selection. It is changed
      at once or not at all, also where the program is stopped: then FILE is the
      old one or the new one, and migrate may be called again. The program of
      the earlier version cannot use it any more, so keep a copy for that

example:
  bureau migrate my.bureau

It prints `version 1 to 4`, with the version that FILE had, or `version 4` where
there was nothing to do. While it runs, no other program can use FILE.

Status 0: FILE is of this version. Status 1: there is not enough memory, and
FILE is as before; or that line could not be printed, and FILE is of this
version. Status 2: the arguments are not as above. Status 3: the bureau's file
failed. `bureau --help` lists the faults.
";

/// The text that `serve --help` prints.
pub const SERVE_HELP: &str = "\
bureau serve FILE PORT COUNT: answers COUNT requests over HTTP, one connection
after the other.

FILE   the bureau's file
PORT   1 to 65535, on this computer alone (127.0.0.1)
COUNT  how many connections are served before it ends: 1 to 1000000

  PUT   /c/CUSTOMER/j/NUMBER/object/SIZE/SWITCHES
          the body is a deck as text
  PUT   /c/CUSTOMER/j/NUMBER/autocoder/SIZE/SWITCHES
          the body is a source, and its data cards
  POST  /c/CUSTOMER/j/NUMBER/slice/LIMIT
          runs 1 to 2000 instructions
  POST  /c/CUSTOMER/j/NUMBER/start/SWITCHES
          lets a halted job go on
  POST  /c/CUSTOMER/j/NUMBER/hold, /release or /collect in its place
  GET   /c/CUSTOMER/j/NUMBER
          how the job stands; /cards and /lines after it: what it punched and
          printed; /cards/0, /cards/4, /cards/8: the cards of a pocket
  GET   /c/CUSTOMER/jobs, or /queue

examples:
  bureau serve my.bureau 8014 100
  curl -X PUT --data-binary @DECK localhost:8014/c/ACME/j/9/object/4000/A

A PUT tells the length of its body. No `100 Continue` is sent, for which curl -T
waits a second: give it -H Expect: too. A client is dropped that sends or takes
nothing for 10 seconds, whose request is not whole after 30, or that has not
taken its answer 60 after it came.

While it runs, no other program can use FILE: ask over HTTP. It ends after COUNT
connections, and then FILE alone is the whole bureau; a service of the system
can start it again. It may also be stopped at any time: what was answered is in
the file. Each program of this computer may give it commands, and so may each
page in a browser on it: let customers come through a proxy.

Status 0: COUNT connections were served. Status 1: the port could not be used,
or there is not enough memory. Status 2: the arguments are not as above. Status
3: the bureau's file failed. `bureau --help` lists the faults and refusals.
";

/// The help of a subcommand, or the whole help.
pub fn page(subcommand: Option<Subcommand>) -> &'static str
    ensures { result.now ≡ page_of subcommand }
{
    match subcommand {
        None => HELP,
        Some(Subcommand::Run) => RUN_HELP,
        Some(Subcommand::Assemble) => ASSEMBLE_HELP,
        Some(Subcommand::Init) => INIT_HELP,
        Some(Subcommand::Apply) => APPLY_HELP,
        Some(Subcommand::Export) => EXPORT_HELP,
        Some(Subcommand::Migrate) => MIGRATE_HELP,
        Some(Subcommand::Serve) => SERVE_HELP,
    }
}
