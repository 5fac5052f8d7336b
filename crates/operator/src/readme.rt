//! The text that says how a folder of archived jobs is read, also without this program.

use crate::job_folders::{Place, place_at, settle, write_new};
use std::io::ErrorKind;
use std::{fs, io};

/// `README.txt` of a folder of archived jobs.
pub const README: &str = "\
What is in this folder, and how to read it without the program that wrote it

Each folder CUSTOMER/NUMBER is one job of a service bureau that runs decks of
punched cards on an IBM 1401 computer, or rather on an exact model of one in
software. The program \"operator\" of Puckersilt wrote it, after it had run the
job again from its deck and found that it did the same. All files are ASCII
text, and each line ends with a line feed, the byte 10.

1. The files

A job's folder is a bag of BagIt 1.0 (RFC 8493):

  bagit.txt               says so
  bag-info.txt            the job's name; how many bytes and how many files are
                          in data; the program that wrote the bag
  manifest-sha256.txt     the SHA-256 of each file in data
  tagmanifest-sha256.txt  the SHA-256 of the three files above
  data/deck.text          the deck of cards, as the customer handed it in
  data/loaded.text        the deck that the machine read. If the customer handed
                          in a source in Autocoder, the assembler's language,
                          this is what the assembler made of it, and behind it
                          the data cards; else it is the same deck
  data/lines.text         what the printer printed
  data/cards.punch        the cards that the machine punched, by their holes
  data/cards.text         the same cards by their characters
  data/record             what else was known of the job (4 below)
  page.html               where it was asked for: a page that shows the job in a
                          browser, with what it printed and the cards that it
                          punched. It is made of the files in data, and no
                          manifest names it

deck.text, loaded.text and cards.text have a line of 80 characters for each
card. cards.punch has a line of 240 hexadecimal digits for each card: three for
each of the 80 columns, as in 3 below. lines.text has a line for each line of
the paper from the first of a form to the last that was printed, without the
blanks at its end; between two forms there is a form feed, the byte 12.

2. Are the files whole?

In a job's folder, with the program sha256sum or any other that computes SHA-256
(FIPS 180-4):

  sha256sum -c tagmanifest-sha256.txt
  sha256sum -c manifest-sha256.txt

In its folder data, \"sha256sum -c record\" checks five files by what the record
says of them; it warns that the record has other lines too, and that is right.

3. The 64 characters

The machine has 64 characters. Each is six bits, named B A 8 4 2 1 from the left
(BCD; bits B and A are the zone). In these files a character is written as one
ASCII byte, its glyph; \")\" stands for the lozenge and \"|\" for the record mark. A
column of a card has twelve rows, named 12 11 0 1 2 3 4 5 6 7 8 9 from the top,
and a character is punched as holes in the rows that are named here. \"Column\" is
the same in three hexadecimal digits, row 12 being 800, row 11 400, row 0 200,
row 1 100, row 2 080 and so on to row 9, 001. The printer has no type for
thirteen of the characters, and leaves a blank.

  No  BA8421  Glyph  Rows    Column  Printed
   0  000000  blank  none    000     blank
   1  000001  1      1       100     1
   2  000010  2      2       080     2
   3  000011  3      3       040     3
   4  000100  4      4       020     4
   5  000101  5      5       010     5
   6  000110  6      6       008     6
   7  000111  7      7       004     7
   8  001000  8      8       002     8
   9  001001  9      9       001     9
  10  001010  0      0       200     0
  11  001011  #      3-8     042     #
  12  001100  @      4-8     022     @
  13  001101  :      5-8     012     blank
  14  001110  >      6-8     00A     blank
  15  001111  \"      7-8     006     blank
  16  010000  ^      2-8     082     blank
  17  010001  /      0-1     300     /
  18  010010  S      0-2     280     S
  19  010011  T      0-3     240     T
  20  010100  U      0-4     220     U
  21  010101  V      0-5     210     V
  22  010110  W      0-6     208     W
  23  010111  X      0-7     204     X
  24  011000  Y      0-8     202     Y
  25  011001  Z      0-9     201     Z
  26  011010  |      0-2-8   282     |
  27  011011  ,      0-3-8   242     ,
  28  011100  %      0-4-8   222     %
  29  011101  =      0-5-8   212     blank
  30  011110  \\      0-6-8   20A     blank
  31  011111  +      0-7-8   206     blank
  32  100000  -      11      400     -
  33  100001  J      11-1    500     J
  34  100010  K      11-2    480     K
  35  100011  L      11-3    440     L
  36  100100  M      11-4    420     M
  37  100101  N      11-5    410     N
  38  100110  O      11-6    408     O
  39  100111  P      11-7    404     P
  40  101000  Q      11-8    402     Q
  41  101001  R      11-9    401     R
  42  101010  !      11-0    600     !
  43  101011  $      11-3-8  442     $
  44  101100  *      11-4-8  422     *
  45  101101  ]      11-5-8  412     blank
  46  101110  ;      11-6-8  40A     blank
  47  101111  _      11-7-8  406     blank
  48  110000  &      12      800     &
  49  110001  A      12-1    900     A
  50  110010  B      12-2    880     B
  51  110011  C      12-3    840     C
  52  110100  D      12-4    820     D
  53  110101  E      12-5    810     E
  54  110110  F      12-6    808     F
  55  110111  G      12-7    804     G
  56  111000  H      12-8    802     H
  57  111001  I      12-9    801     I
  58  111010  ?      12-0    A00     ?
  59  111011  .      12-3-8  842     .
  60  111100  )      12-4-8  822     )
  61  111101  [      12-5-8  812     blank
  62  111110  <      12-6-8  80A     blank
  63  111111  }      12-7-8  806     blank

4. The record

Each line has a name and its values:

  customer, number    the job's name
  kind                \"object\": the deck is a program for the machine;
                      \"autocoder\": it is a source
  size                how many positions the machine's storage has
  profile             1: a machine without a choice of pockets for its punched
                      cards; 2: one with it
  stretch S N         a start of the machine (5 below), a line for each in their
                      order: the sense switches S that were on, or \"-\" for none,
                      and how many instructions N were granted in it
  standing            how the job stood at last: \"running\" (it had used up its
                      grants), \"halted next N\" (it had halted, and would go on
                      with the instruction at N), or \"check WHAT at N\" (the
                      instruction at N was wrong, and the job cannot go on)
  held, collected     yes or no: whether the bureau held the job back, and
                      whether the customer had called for what it made
  cards, lines        how many cards were punched and how many lines printed
  pocket P N          the card at place P of cards.text, from 1, fell into
                      pocket 4 or 8; all others fell into the normal one
  SHA256 (F) = D      the digest D of the file F

5. To run a job again

On an IBM 1401 or a model of one, with that size of storage, index locations,
sense switches and the comparison for high and low (IBM's manual of the machine
is A24-1403; the program's own rules are in its docs/profile): at the beginning
the first card of loaded.text stands in storage positions 1 to 80, all else is
blank, position 1 alone has a word mark, and the machine is to execute the
instruction at position 1. The other cards wait in the reader. Set the sense
switches of the first stretch, and let the machine execute instructions until it
halts, finds one wrong, or has executed N; the one that halts counts too. If
there is another stretch, set its switches and start the machine: it goes on at
the next instruction. What it prints is lines.text, and what it punches are the
cards of cards.text.

With the program \"bureau\" of Puckersilt, for the job ACME 9 of kind object, with
size 4000, the stretches \"A 2034\" and \"- 2000\", and 6 cards in deck.text, write
a file SCRIPT of these lines and the cards:

  submit ACME 9 object 4000 A 6
  (here the 6 lines of deck.text)
  slice ACME 9 34
  slice ACME 9 2000
  start ACME 9 -
  slice ACME 9 2000

A slice is of at most 2000 instructions, and the slices of a stretch are of N
together, the smallest first, since a job that has halted takes no more; a
stretch of 0 has no slice. Where the record says so, add \"hold ACME 9\" or
\"collect ACME 9\". Then:

  bureau init new.bureau
  bureau apply new.bureau SCRIPT
  operator archive new.bureau again

The folder again/ACME/9 is the same as this one, but for the line of the program
in bag-info.txt and its digest. A job of profile 1 is then one of profile 2, and
does the same unless it chooses a pocket.
";

/// Writes `README.txt` in a folder, unless there is something of this name. It is there whole or
/// not at all: it is written under another name, and what a killed run has left of that goes.
pub(crate) fn put_readme(rt: &HostRuntime, folder: &str) -> io::Result<()> {
    let path = format!(in rt.alloc(); "{folder}/README.txt")?;
    let Place::Nothing = place_at(rt, &path)? else {
        return Ok(());
    };
    let part = format!(in rt.alloc(); "{folder}/README.txt.part")?;
    match fs::remove_file(rt, &part) {
        Err(error) if error.kind() == ErrorKind::NotFound => {}
        removed => removed?,
    }
    write_new(rt, &part, README.as_bytes())?;
    fs::rename(rt, &part, &path)?;
    settle(rt, folder)
}
