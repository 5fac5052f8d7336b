//! What the program prints of itself.

ghost use Rattle.std.specs.Prelude.{◌≡◌};
ghost use Rattle.operator.specs.Printed.{page_of};

use crate::subcommands::Subcommand;
use command_line::version_of;

/// The text that `--help` prints.
pub const HELP: &str = "\
operator: what the operator of a bureau does, beside the bureau's own program.

usage: operator SUBCOMMAND ARGUMENTS.. [OPTIONS]

  check FILE              runs each job of a bureau's file again, and compares
  jobs FILE [CUSTOMER]    lists the jobs of a bureau's file
  copy FILE NEW           writes a whole copy of a bureau's file, and compares
  part FILE NEW [--others] CUSTOMER..
                          writes a new bureau's file with these customers' jobs
  join FIRST SECOND NEW   writes a new bureau's file with the jobs of two
  archive FILE FOLDER [--pages]
                          writes each job's decks, cards and lines into a folder
  verify FOLDER           runs each job of such a folder again, and compares
  restore FOLDER NEW      writes a new bureau's file with the jobs of such a
                          folder, handed in again
  work PORT [OPTIONS]     runs the queue of a bureau that is served, in turns
  watch PORT [OPTIONS]    tells what comes into that queue, and what leaves it
  class PORT NAMES [PAGE] [OPTIONS]
                          shows how the jobs of a list's customers stand

  operator SUBCOMMAND --help   prints the help of one subcommand (or -h)
  operator --help, --version   prints this text, or the version

Status 0: all was done, and nothing differs. Status 1: something differs or
failed, and was printed. Status 2: the arguments are not as above. Status 3: the
bureau's file could not be used.
";

/// The text that `check --help` prints.
pub const CHECK_HELP: &str = "\
operator check FILE: runs each job of a bureau's file again, and compares.

FILE  the bureau's file, which no other program has open

example:
  operator check my.bureau

Each row of each table is read. Each job is run again from its deck, by its
starts and the instructions that it was granted, and its cards, lines and
machine are compared with what the rows hold. A line is printed for each job,
with the first row that differs, and at the end a sum. If nothing differs the
file holds a bureau whose jobs did what they did, and nothing else. The file is
not changed. Status 1: something differs.
";

/// The text that `jobs --help` prints.
pub const JOBS_HELP: &str = "\
operator jobs FILE [CUSTOMER]: lists the jobs of a bureau's file.

FILE      the bureau's file, which no other program has open
CUSTOMER  whose jobs are listed; without it those of all customers

example:
  operator jobs my.bureau
  operator jobs my.bureau ACME

A line is printed for each job, in the order in which the jobs were taken: its
customer and number, how it stands, held and collected where it is, and how many
instructions it was granted, how many cards it has punched and how many lines it
has printed. The file is not changed. Status 3: the file could not be used.
";

/// The text that `copy --help` prints.
pub const COPY_HELP: &str = "\
operator copy FILE NEW: writes a whole copy of a bureau's file, and compares it.

FILE  the bureau's file, which no other program has open
NEW   the copy; no file of this name may be there

example:
  operator copy my.bureau my.copy

The copy is one file with no log beside it. It is read back, and each row of it
is compared with that of FILE. FILE is not changed. If the copy is killed, NEW
is not there, or it is whole; a file NEW.1.part beside it may be removed. Status
1: the copy differs, and there is none, or there was no memory. Status 3: FILE
could not be used, or NEW could not be made or is there already.
";

/// The text that `part --help` prints.
pub const PART_HELP: &str = "\
operator part FILE NEW [--others] CUSTOMER..: writes a new bureau's file with
these customers' jobs.

FILE      the bureau's file, which no other program has open
NEW       the new file; no file of this name may be there
--others  NEW gets the jobs of all customers but these
CUSTOMER  a customer who has a job in FILE

example:
  operator part my.bureau acme.bureau ACME
  operator part my.bureau rest.bureau --others ACME

NEW is a bureau's file with no log beside it. It has each job of these customers
with its decks, starts, cards and lines, and the jobs are in the order that they
have in FILE. It is read back, and each row of it is compared with that of FILE.
FILE is not changed. If part is killed, NEW is not there, or it is whole; a file
NEW.1.part beside it may be removed. Status 1: there is no job of a customer, or
something differs, and there is no NEW; or there was no memory. Status 3: FILE
could not be used, or NEW could not be made or is there already.
";

/// The text that `join --help` prints.
pub const JOIN_HELP: &str = "\
operator join FIRST SECOND NEW: writes a new bureau's file with the jobs of two.

FIRST, SECOND  the bureaus' files, which no other program has open; no customer
               has jobs in both
NEW            the new file; no file of this name may be there

example:
  operator join our.bureau acme.bureau new.bureau

NEW is a bureau's file with no log beside it. It has each job of FIRST and then
each of SECOND, with its decks, starts, cards and lines. It is read back, and
each row of it is compared with that of its file. FIRST and SECOND are not
changed. If join is killed, NEW is not there, or it is whole; a file NEW.1.part
beside it may be removed. Status 1: a customer has jobs in both, or something
differs, and there is no NEW; or there was no memory. Status 3: FIRST or SECOND
could not be used, or they are one file, or NEW could not be made or is there
already.
";

/// The text that `archive --help` prints.
pub const ARCHIVE_HELP: &str = "\
operator archive FILE FOLDER [--pages]: writes each job's decks, cards and lines
into a folder.

FILE     the bureau's file, which no other program has open
FOLDER   the folder that the jobs' folders stand in
--pages  each job's folder gets its page too, to look at in a browser

example:
  operator archive my.bureau archive
  operator archive my.bureau archive --pages

Each job is run again as check does. For each one that is as it ran a folder
FOLDER/CUSTOMER/NUMBER is written, a bag of BagIt 1.0 (RFC 8493). In its data/
are deck.text (as it was submitted), loaded.text (as the machine read it),
lines.text, cards.punch, cards.text, and record: the customer, the number, the
kind, the size, the profile, the switches and the granted instructions of each
stretch, how the job stands, whether it is held and collected, the pockets of
its cards, and the SHA-256 of the other files. sha256sum -c reads record and the
two manifests. A folder that is there already is compared and not written; which
version of the program wrote it does not count. FOLDER/README.txt says how to
read it all; one that is there stays. The bureau's file is not changed. Status
1: something differs, or could not be written.

A page, FOLDER/CUSTOMER/NUMBER/page.html, stands beside the files of the bag,
whose manifests do not name it. It shows what was run and how the job stands,
the digests, the source with its code or else the deck, the listing on its
forms, and the punched cards. It is written where there is none, also for a
folder that is there and the same. One that is there stays as it is.
";

/// The text that `verify --help` prints.
pub const VERIFY_HELP: &str = "\
operator verify FOLDER: runs each job of an archive again from its own folder
alone, and compares.

FOLDER  the folder that archive wrote the jobs' folders into

example:
  operator verify archive

The digests of each bag are checked. Then its job is run again from deck.text
and record, and each file is compared with what the job makes; which version of
the program wrote it does not count. What a page shows is not looked at. A line
is printed for each job, with all that is wrong, and at the end a sum. No
bureau's file is needed, and nothing is changed. Status 1: something is wrong,
or FOLDER has what is no job's folder.
";

/// The text that `restore --help` prints.
pub const RESTORE_HELP: &str = "\
operator restore FOLDER NEW: writes a new bureau's file with the jobs of an
archive, handed in again.

FOLDER  the folder that archive wrote the jobs' folders into
NEW     the new file; no file of this name may be there, and no log or journal
        beside it

example:
  operator restore archive new.bureau
  operator join my.bureau new.bureau both.bureau

Each bag is verified as by verify. Its job is submitted, started and granted
slices as its record says, held and collected too, customer by customer and in
the order of the numbers. Then each job of NEW is compared with its bag. A line
is printed for each job: that it is the same, or the first line in which its
record differs, and whether its lines and cards are others. A job of profile 1
is one of profile 2 then, and is told to differ. If restore is killed, NEW is
whole or not there; a file NEW.1.part, or one with another number, may be left
beside it, with a log, and may be removed. Status 1: something differs, or a bag
is wrong and its job is not in NEW. Status 3: NEW could not be made, or it, a log
or a journal is there already.
";

/// The text that `work --help` prints.
pub const WORK_HELP: &str = "\
operator work PORT [--slice N] [--rounds N] [--pause SECONDS] [--keep]: runs the
queue of a bureau that is served, in fair turns.

PORT             the port on 127.0.0.1 at which bureau serve listens
--slice N        the instructions of a slice, 1 to 2,000; without it 2,000
--rounds N       the work ends after so many rounds; without it when there is
                 nothing to run
--pause SECONDS  how long to wait after a request that failed, and after a round
                 in which no slice ran; without it 1
--keep           the work goes on when there is nothing to run: it asks for the
                 queue again after the pause

example:
  operator work 8014
  operator work 8014 --slice 500 --rounds 10

A round asks for the queue, and then for one slice of each job in it. A job that
has stopped is printed with its standing and the instructions that it did here.
A job that another request was faster for is passed over. A request that could
not be made is made again after the pause, ten times at most; one that was sent
and not answered is never sent again within its round.

A job that runs on though it was granted all of its 1,000,000,000 instructions
is named once, with the command that takes it out of the queue. There is nothing
to run where the queue is empty, or has only such jobs: then the work ends with
status 0.

After a round in which no slice ran, though there were other jobs, the next one
waits for the pause. After ten such rounds, or one that is the last of --rounds,
the work ends with status 1. Status 1 also: the bureau did not answer, or what
answers is no bureau.
";

/// The text that `watch --help` prints.
pub const WATCH_HELP: &str = "\
operator watch PORT [--rounds N] [--pause SECONDS]: tells what comes into the
queue of a bureau that is served, and what leaves it.

PORT             the port on 127.0.0.1 at which bureau serve listens
--rounds N       how often the queue is asked for; without it until the program
                 is stopped
--pause SECONDS  how long to wait before it is asked for again; without it 5

example:
  operator watch 8014
  operator watch 8014 --rounds 100 --pause 60

It asks only for the queue and for how jobs stand, so it changes nothing. It
prints:

  queue empty            no job is in the queue, when it is asked for first
  ACME 9 came: running granted 0 cards 0 lines 0
                         a job is in the queue that was not: how it stands
  ACME 9 left: halted next 361 granted 2034 cards 0 lines 2
                         a job is no longer in the queue: how it stands, also
                         held or collected
  port 8014: no answer   the bureau could be asked no longer
  port 8014: answers again

The jobs that left are printed before those that came, each in the order of its
queue. What came and left between two requests is not seen. Status 1: what
answers is no bureau.
";

/// The text that `class --help` prints.
pub const CLASS_HELP: &str = "\
operator class PORT NAMES [PAGE] [--watch] [--pause SECONDS]: shows how the jobs
of a list's customers stand.

PORT             the port on 127.0.0.1 at which bureau serve listens
NAMES            the list: a file with the name of a customer on each line; what
                 follows it there, and a line that begins with #, does not count
PAGE             the page that is written, to look at in a browser or to print;
                 without it the table is printed. No file of this name may be
                 there
--watch          shows the table, or writes the page, again and again, until the
                 program is stopped
--pause SECONDS  how long to wait before it is shown again; without it 5

example:
  operator class 8014 class.list
  operator class 8014 class.list class.html --watch

A row for each job has its customer and number, the instructions it was granted,
the cards it punched, the lines it printed, and how it stands, also held or
collected. It asks only for jobs and how they stand, so it changes nothing. A
page that is shown again and again is loaded anew by the browser. If it is
stopped, PAGE is whole, and PAGE.part may be removed. Status 1: there was no
answer for a customer, NAMES is no such list, or PAGE could not be written.
";

/// The text that `--version` prints.
pub const VERSION: &str = version_of!("operator");

/// The program with its version, as the bags name it that it writes: what the version begins with.
pub(crate) fn agent() -> &'static str {
    match VERSION.split_once(" (") {
        Some((agent, _)) => agent,
        None => VERSION,
    }
}

/// The help of a subcommand, or the whole help.
pub(crate) fn page(subcommand: Option<Subcommand>) -> &'static str
    ensures { result.now ≡ page_of subcommand }
{
    match subcommand {
        None => HELP,
        Some(Subcommand::Check) => CHECK_HELP,
        Some(Subcommand::Jobs) => JOBS_HELP,
        Some(Subcommand::Copy) => COPY_HELP,
        Some(Subcommand::Part) => PART_HELP,
        Some(Subcommand::Join) => JOIN_HELP,
        Some(Subcommand::Archive) => ARCHIVE_HELP,
        Some(Subcommand::Verify) => VERIFY_HELP,
        Some(Subcommand::Restore) => RESTORE_HELP,
        Some(Subcommand::Work) => WORK_HELP,
        Some(Subcommand::Watch) => WATCH_HELP,
        Some(Subcommand::Class) => CLASS_HELP,
    }
}
