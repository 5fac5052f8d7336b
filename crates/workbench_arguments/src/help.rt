//! The texts of the help and the version.

ghost use Rattle.std.specs.Prelude.{◌≡◌};
ghost use Rattle.workbench_arguments.specs.Printed.{page_of};

use crate::subcommands::Subcommand;
use command_line::version_of;

/// The text that `--help` prints.
pub const HELP: &str = "\
workbench: decks and sources as people have them, for a bureau on an IBM 1401.

usage: workbench SUBCOMMAND ARGUMENTS.. [OPTIONS]

  punch IN OUT [OPTIONS]                takes a text of lines as a deck of cards
  list DECK [--ruler] [--punches]       prints the cards of a deck
  compare ONE OTHER                     prints the cards in which decks differ
  sequence IN OUT IDENT FIRST STEP      numbers the cards in columns 73 to 80
  sequence IN                           prints where these numbers do not rise
  convert IN OUT FROM TO                makes a deck of one form one of another
  cut IN OUT FIRST LAST [--numbers]     makes a deck of some cards of another
  source IN [--data] [--width WIDTH]    prints a source with its code, or faults
  manifest FILE.. [OPTIONS]             prints digests of decks, or compares
  intake FOLDER OUT [OPTIONS]           takes each file of a folder as a deck
  trace DECK SIZE SWITCHES [OPTIONS]    prints the instructions of a run
  dump DECK SIZE SWITCHES [OPTIONS]     prints the storage in or after a run
  profile DECK SIZE SWITCHES [OPTIONS]  prints how often each instruction ran
  console DECK SIZE SWITCHES [OPTIONS]  goes through a run step by step
  card DECK N OUT                       draws a card
  deck DECK OUT [--title TEXT]          draws the cards of a deck on a page
  pages LISTING OUT [--title TEXT]      draws a listing as pages of paper
  page SOURCE SIZE SWITCHES OUT [..]    draws a job: source, run, what came out
  film DECK SIZE SWITCHES OUT [..]      shows a run step by step, on a page
  code DECK SIZE [OUT] [OPTIONS]        makes a source of what a deck loads

  workbench SUBCOMMAND --help           prints the help of one (or -h)
  workbench --help                      prints this text (or -h)
  workbench --version                   prints the version and its proof's logic

IN, DECK, ONE, OTHER, FILE, LISTING and SOURCE may be - for the standard input,
OUT - for the standard output: so subcommands are joined by pipes. Where a value
begins with a hyphen, put -- before it. No file is changed but OUT. A file there
has all of what is written or stays as it was; a link or a device is written
straight, and a full disk may leave a part.

A deck is a deck text (80 glyphs a line) or a punch file (240 hexadecimal digits
a line), which is what `bureau export` writes; subcommands with no other form
tell them by their width. punch makes a deck text of any other text. Columns
that are no characters, in a punch file, and more than 2,000 cards are taken by
list, compare, convert, cut, manifest, card and deck. The others take what a
bureau's machine reads: at most 2,000 cards of characters.

exit status:
  0  all was done, and nothing was found
  1  something was found or refused, and printed
  2  the arguments are not as above
";

/// The text that `punch --help` prints.
pub const PUNCH_HELP: &str = "\
workbench punch IN OUT [--fold] [--tabs LIST] [--signs TABLE] [--keep COLUMN]
[--empty MODE] [--report]: takes a text of lines as a deck, and writes the
deck's text.

IN   a text of lines; a line is a card. It ends with LF, CR LF or CR, or with
     the text. A mark EF BB BF at the front and bytes 1A at the end are passed
     over
OUT  the deck's text: 80 glyphs and a line feed a card

--fold          small letters are capitals
--tabs LIST     a tab goes on at the next of these columns, as 6,16,21,41;
                behind the last of them it is a blank
--signs simh    the text has the signs of SimH's IBM 1401 and not the glyphs
                (--signs glyphs, as without it)
--keep COLUMN   columns behind this one are not looked at and become blank, as
                72 for sequence numbers
--empty MODE    what a line without a character is: card (a blank card, as
                without it), drop (no card) or fault
--report        a line on standard error for each line that was changed

example:
  workbench punch mine.txt mine.source --fold --tabs 6,16,21,41

Blanks at the end of a line are cut, and each card is filled up. Nothing else is
forgiven: each fault is printed with its line and column, and then OUT is not
written. A line of 240 hexadecimal digits is a card of a punch file, and a fault
by any options. One line on standard error says what was done:
  cards 12 filled 10 folded 9 tabs 21 blank 1 (--empty drop)
It names --empty drop where the blank cards were empty lines, and --keep 72
where each card that is not blank has a number in columns 73 to 80 and these
numbers rise.
";

/// The text that `list --help` prints.
pub const LIST_HELP: &str = "\
workbench list DECK [--ruler] [--punches]: prints the cards of a deck, each with
its number.

DECK       a deck text or a punch file
--ruler    a ruler stands over the first card and over each fiftieth
--punches  the rows 12, 11 and 0 to 9 stand under each card, with a mark for
           each hole

A column whose holes are no character's is shown as ~, which is none of the 64.

example:
  workbench list examples/two_lines.deck --ruler
";

/// The text that `compare --help` prints.
pub const COMPARE_HELP: &str = "\
workbench compare ONE OTHER: prints the cards in which two decks differ, and how
many these are.

ONE, OTHER  two deck texts or punch files, in any pair

example:
  workbench compare ACME-9.cards expected.deck

Under two cards with one number stands a ^ for each column that differs. A
column whose holes are no character's is shown as ~; two of them differ where
their holes do. Status 0: the decks are the same. Status 1: they differ, or one
cannot be read.
";

/// The text that `sequence --help` prints.
pub const SEQUENCE_HELP: &str = "\
workbench sequence IN OUT IDENT FIRST STEP: numbers the cards of a deck in
columns 73 to 80.
workbench sequence IN: prints where these numbers do not rise.

IN     a deck text or a punch file
OUT    the text of the numbered deck
IDENT  0 to 5 glyphs that stand from column 73 on; the number fills the other
       columns
FIRST  the number of the first card, 1 to 9 digits without a zero in front
STEP   what each next number is more

examples:
  workbench sequence mine.source numbered.source PAY 10 10
  workbench sequence numbered.source

Columns 73 to 80 must be blank, or have been numbered with the same IDENT:
nothing else is written over, and no other column is changed.
";

/// The text that `convert --help` prints.
pub const CONVERT_HELP: &str = "\
workbench convert IN OUT FROM TO: makes a deck of one form one of another.

FROM, TO  text    80 glyphs and a line feed a card, as bureau reads it
          punch   three hexadecimal digits a column and a line feed a card, as
                  bureau export writes it; A to F are read as small letters too
          simh    a line of signs a card, as SimH's IBM 1401 reads and punches
                  it
          binary  column binary: two bytes a column, rows 12 to 3 and rows 4 to
                  9, and no line feed

example:
  workbench convert ACME-9.cards ACME-9.deck punch text

The form is always named and never guessed: a text that holds \", = or + is a
good deck both as glyphs and as SimH's signs, with another meaning. Of a punch
file column binary is made, and the other way round, with every hole and of any
number of cards. A text has characters alone: a column that is none is printed
with its card and its pattern, and OUT is not written.
";

/// The text that `cut --help` prints.
pub const CUT_HELP: &str = "\
workbench cut IN OUT FIRST LAST [--numbers]: makes a deck of some cards of
another, from one card to another, in the same form.

IN         a deck text or a punch file, of any number of cards
OUT        the deck of the part
FIRST      the place of its first card in IN, the first card of IN being 1
LAST       the place of its last card in IN
--numbers  FIRST and LAST are what stands in columns 73 to 80 of the first and
           of the last card, all eight columns, as sequence writes them; each
           must stand on one card and no other

examples:
  workbench cut drawer.deck first.deck 1 2000
  workbench cut numbered.source part.source PAY00010 PAY00030 --numbers
";

/// The text that `source --help` prints.
pub const SOURCE_HELP: &str = "\
workbench source IN [--data] [--width 80|120]: prints an Autocoder source with
its code and names, or its faults.

IN           a deck text or a punch file that begins with the source
--data       behind a source without faults the cards after its END card are
             listed, with their numbers, as list prints them
--width 80   the code of a card stands below it, and the listing has 80 columns
--width 120  the code stands behind the card, which takes 120 columns and more
             (as without it)

example:
  workbench source examples/two_lines.source --width 80

A source without faults is listed with the characters that each card places, and
with the cards that use each name. Else each fault is printed with its card and
a ^ under its place, and at the end how many there are; the status is 1 then.
`bureau assemble` makes the deck.
";

/// The text that `manifest --help` prints.
pub const MANIFEST_HELP: &str = "\
workbench manifest FILE.. [--form FORM] [--cards] [--check KNOWN]: prints a
digest of each deck, as sha256sum does of its text.

FILE   files of decks, and folders: of a folder all files in it and in the
       folders below it. A link to a file is taken as that file; links to
       folders are not followed, and devices are passed over. A folder that
       cannot be read is told, and so is a name that is no UTF-8 text or has a
       line feed. An empty folder has no lines, and a name that comes twice has
       one
FORM   the form of all files: text, punch, simh or binary, as convert --help has
       them; without it text and punch are told by the width of the first line
KNOWN  a file with lines that manifest printed, with --cards or without: what is
       missing, damaged, different or new is printed in place of the digests,
       and the status is 1 where anything is. A damaged file is there, and is no
       deck

--cards  the number of a deck's cards stands before the name, with two blanks
         behind it; sha256sum reads no such line

examples:
  workbench manifest examples/two_lines.deck archive > decks.manifest
  workbench manifest examples/two_lines.deck archive --check decks.manifest
  sha256sum --check decks.manifest

A line is the SHA-256 of the deck's text in hexadecimal and the name of the
file; the lines are sorted by the bytes of the names. The digest does not depend
on the form of the file. Of a deck text it is the file's own, and sha256sum
checks it; a file of another form wants a sha256sum of its own. Of a deck with a
column that is no character it is the digest of its punch file in capitals. A
name that begins with a number and two blanks, or ends with a carriage return,
would be read as another one and is told. A file that is no deck is told with
its fault, the status is 1 then, and the others go on.
";

/// The text that `intake --help` prints.
pub const INTAKE_HELP: &str = "\
workbench intake FOLDER OUT [--fold] [--tabs LIST] [--signs TABLE]
[--keep COLUMN] [--empty MODE]: takes each file of a folder as a deck.

FOLDER  a folder; its files and those of the folders below it are read, and
        none is changed
OUT     the folder of the decks' texts, each at the path that its file has in
        FOLDER. What is there is never written over

--fold          small letters are capitals
--tabs LIST     a tab goes on at the next of these columns, as 6,16,21,41;
                behind the last of them it is a blank
--signs simh    texts have the signs of SimH's IBM 1401; --signs glyphs: they
                have the glyphs. Without it both are tried
--keep COLUMN   columns behind this one are not looked at and become blank, as
                72 for sequence numbers
--empty MODE    what a line without a character is: card (a blank card, as
                without it), drop (no card) or fault

example:
  workbench intake collection decks

A file is taken if it is a punch file, column binary, or a text without faults.
Nothing is guessed: a file that is one deck in one way and another deck in
another way is refused, and so is a text with small letters without --fold. A
line for each file says how it was taken, or why it is refused; these are last.
Called again, it takes what is new. The digests of the decks taken are added to
the file OUT.manifest, as manifest prints them. Status 1: a file is refused.
";

/// The text that `trace --help` prints.
pub const TRACE_HELP: &str = "\
workbench trace DECK SIZE SWITCHES [--from N] [--count N] [--stop ADDRESS]
[--names SOURCE] [--fields]: prints the instructions of a run, one a line.

DECK            a deck that loads itself, as bureau run takes it
SIZE            positions of storage: 1400, 2000, 4000, 8000, 12000 or 16000
SWITCHES        rising letters of ABCDEFG, the sense switches that are on, or -
                for none
--from N        the number of the first instruction that is printed, or 1
--count N       how many are printed at most, or 1,000
--stop ADDRESS  the run ends before the instruction at this address, a number
                from 1 to 15999, or with --names a name of the source, also with
                a number added: READ, 'READ&7'
--names SOURCE  the Autocoder source of the deck, whose names are shown beside
                addresses
--fields        below an instruction the fields that it works at, before it and,
                if they are others then, after it

example:
  workbench trace examples/two_lines.deck 4000 A --count 20
  workbench trace examples/two_lines.deck 4000 A --stop 357
  workbench trace examples/two_lines.deck 4000 A --from 27 --count 1 --fields
  workbench trace mine.deck 4000 A --names mine.source --stop 'READ&8'

A line has the number of the instruction, its address, its characters, the
statement that the assembler makes them of, the registers A and B and what the
units did. The last 20 instructions before a check are always printed. The end
is the line of bureau run; no option changes what the run does. workbench
profile shows where a run is that does not end. Status 0: the machine stands at
a halt.
";

/// The text that `dump --help` prints.
pub const DUMP_HELP: &str = "\
workbench dump DECK SIZE SWITCHES [--after N] [--stop ADDRESS] [--first N]
[--last N]: prints the storage after a run, or within it.

DECK, SIZE, SWITCHES  as trace --help has them
--after N             the machine does N instructions; without it it goes on to
                      its end
--stop ADDRESS        it stops before the instruction at this address, a number
                      from 1 to 15999
--first N, --last N   positions of the first and of the last row that are
                      printed

example:
  workbench dump examples/two_lines.deck 4000 A --after 30
  workbench dump examples/two_lines.deck 4000 A --first 333 --last 380

A row has 50 positions, with an apostrophe under each that has a word mark;
(blank) stands for rows that are blank and have none. Behind them come the
registers, the reader, the punch and the printer.
";

/// The text that `profile --help` prints.
pub const PROFILE_HELP: &str = "\
workbench profile DECK SIZE SWITCHES [--names SOURCE]: prints how often a run
did each instruction.

DECK, SIZE, SWITCHES  as trace --help has them
--names SOURCE        the Autocoder source of the deck: it is listed, with the
                      count of each card

example:
  workbench profile examples/primes.deck 4000 A
  workbench profile examples/primes.deck 4000 A --names examples/primes.source

Without --names there is a line for each address at which an instruction began.
The counts add up to the instructions that the run did. What an instruction did
with its fields is shown by workbench trace --fields.
";

/// The text that `console --help` prints.
pub const CONSOLE_HELP: &str = "\
workbench console DECK SIZE SWITCHES [--names SOURCE]: goes through a run step
by step. It reads lines from the standard input and answers each, up to the end
of the input.

DECK            a deck text or a punch file; like SOURCE a file, and not -
SIZE, SWITCHES  as trace --help has them
--names SOURCE  shows each address by the names of this source too, and takes
                them

lines:
  step, step N           one instruction or N, each with a line as trace has it
  go, go N               up to a stop, a change, a halt, a check, or N
                         instructions (1000000)
  stop ADDRESS           sets a stop: go ends before the instruction there
  clear ADDRESS, stops   clears it; lists the stops
  watch ADDRESS          go ends after an instruction that changes the character
                         or the mark there
  watch                  watches nothing
  dump, dump FIRST LAST  the storage as dump has it, registers, units
  registers              registers and units
  field ADDRESS          the field that ends there
  cards, lines           the cards punched, the lines printed
  start SWITCHES         the start button, at a halt
  back, back N           one instruction or N back
  help, end              the lines; the end

ADDRESS, FIRST and LAST are numbers from 0 to 15999, or with --names as LOOP,
LOOP&7, LOOP-7. No line changes storage: what is seen is a run of the deck, as
bureau run does it.

example:
  workbench console examples/primes.deck 4000 A --names examples/primes.source
";

/// The text that `card --help` prints.
pub const CARD_HELP: &str = "\
workbench card DECK N OUT: draws a card, as a picture of its own (SVG).

DECK  a deck text or a punch file
N     the number of the card, from 1
OUT   the picture

example:
  workbench card examples/two_lines.deck 5 hello.svg
  workbench card ACME-9.cards 1 first.svg

The picture has the holes of the card, and its glyphs at the upper edge; there a
column whose holes are no character's is blank. It needs no other file.
";

/// The text that `deck --help` prints.
pub const DECK_HELP: &str = "\
workbench deck DECK OUT [--title TEXT]: draws the cards of a deck on one page
(HTML).

DECK          a deck text or a punch file
OUT           the page
--title TEXT  what the page is called; without it the name of DECK

example:
  workbench deck examples/two_lines.deck two_lines.html
  workbench deck ACME-9.cards ACME-9.html --title 'What job 9 of ACME punched'

The page has no script and needs no other file.
";

/// The text that `pages --help` prints.
pub const PAGES_HELP: &str = "\
workbench pages LISTING OUT [--title TEXT]: draws a listing as pages of paper
with bars (HTML).

LISTING       the lines of a job, as bureau run and bureau export write them
OUT           the pages
--title TEXT  what they are called; without it the name of LISTING

example:
  bureau run examples/primes.deck 4000 A > primes.lines
  workbench pages primes.lines primes.html

A form is a page of 66 lines and 132 columns. The pages have no script and need
no other file. On a narrow screen a form is smaller, and moves sideways where
its letters would be too small to read; on paper it has its own size.
";

/// The text that `page --help` prints.
pub const PAGE_HELP: &str = "\
workbench page SOURCE SIZE SWITCHES OUT [--title TEXT]: draws a job on one page
(HTML).

SOURCE          a deck text that begins with the source; the cards behind it are
                the job's data
SIZE, SWITCHES  as trace --help has them
OUT             the page
--title TEXT    what the page is called; without it what the first JOB card of
                SOURCE says, or where there is none the name of SOURCE

example:
  workbench page examples/two_lines.source 4000 A two_lines.html
  workbench page mine.source 8000 - mine.html

The page has the source with its code and names, the end of its run, what it
printed and punched, and the SHA-256 of each. It has no script and needs no
other file.
";

/// The text that `film --help` prints.
pub const FILM_HELP: &str = "\
workbench film DECK SIZE SWITCHES OUT [--names SOURCE] [--from N] [--last N]
[--count N] [--title TEXT]: shows a run step by step, on a page (HTML).

DECK, SIZE, SWITCHES  as trace --help has them
OUT                   the page
--names SOURCE        the Autocoder source of the deck: the card that is done is
                      marked in it
--from N              the first instruction that is shown, 1 without it
--last N              begins N instructions before the end of the run, in place
                      of --from: what came before a check
--count N             how many are shown, 2,000 without it
--title TEXT          what the page is called; without it the name of DECK

example:
  workbench film examples/sales_report.deck 1400 A sales.html \\
      --names examples/sales_report.source

The page shows the instruction that was done, registers and indicators, storage
at the instruction and its fields with what changed, the paper, the card in the
reader and the one punched last, and all storage. Keys: left and right, with
shift by ten, Home, End, space, P for the program, U for the next card or line.
It needs no other file. Without a script its data is there as text. It ends at
the first halt or check, and has at most 4,000,000 bytes of changes.
";

/// The text that `code --help` prints.
pub const CODE_HELP: &str = "\
workbench code DECK SIZE [OUT] [--names SOURCE] [--after N] [--run] [--numbers]:
makes an Autocoder source of what a deck loads, and prints it with its code.

DECK            a deck text or a punch file
SIZE            the positions of storage: 1400, 2000, 4000, 8000, 12000 or 16000
OUT             the source, as a deck text, with the cards behind it that the
                program has not read
--names SOURCE  its names are those of another source of the same program
--after N       the program is loaded after N instructions; without it when
                control comes past 080 for the first time
--run           the program is run, and what a run begins is an instruction too
--numbers       addresses are numbers, and not labels

example:
  workbench code examples/sales_report.deck 1400 sales.source

What control comes to, by the addresses as they stand, are instructions, and all
else are constants: where a program changes its addresses, --run finds more.
Before OUT is written the source is assembled, and must have the character and
the word mark of each position from 081 on. An at sign that stands in no
instruction, and what stands below 081, can be placed by no card: then OUT is
not written, and the status is 1. Addresses within constants stay digits.
";

/// The text that `--version` prints.
pub const VERSION: &str = version_of!("workbench");

/// The help of a subcommand, or the whole help.
pub(crate) fn page(subcommand: Option<Subcommand>) -> &'static str
    ensures { result.now ≡ page_of subcommand }
{
    match subcommand {
        None => HELP,
        Some(Subcommand::Punch) => PUNCH_HELP,
        Some(Subcommand::List) => LIST_HELP,
        Some(Subcommand::Compare) => COMPARE_HELP,
        Some(Subcommand::Sequence) => SEQUENCE_HELP,
        Some(Subcommand::Convert) => CONVERT_HELP,
        Some(Subcommand::Cut) => CUT_HELP,
        Some(Subcommand::Source) => SOURCE_HELP,
        Some(Subcommand::Manifest) => MANIFEST_HELP,
        Some(Subcommand::Intake) => INTAKE_HELP,
        Some(Subcommand::Trace) => TRACE_HELP,
        Some(Subcommand::Dump) => DUMP_HELP,
        Some(Subcommand::Profile) => PROFILE_HELP,
        Some(Subcommand::Console) => CONSOLE_HELP,
        Some(Subcommand::Card) => CARD_HELP,
        Some(Subcommand::Deck) => DECK_HELP,
        Some(Subcommand::Pages) => PAGES_HELP,
        Some(Subcommand::Page) => PAGE_HELP,
        Some(Subcommand::Film) => FILM_HELP,
        Some(Subcommand::Code) => CODE_HELP,
    }
}
