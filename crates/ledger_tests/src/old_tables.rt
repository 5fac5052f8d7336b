//! Statements that make a bureau's tables those of an older version, with the same two jobs.

use std::alloc::Global;
use std::test::Fail;

/// Creates the tables of version 1, and beside them those that version 4 has besides or in place of
/// `pictures`.
pub(crate) const FIRST_TABLES: &str = "\
    BEGIN;
    CREATE TABLE bureau (id INTEGER NOT NULL PRIMARY KEY, version INTEGER NOT NULL) STRICT;
    CREATE TABLE jobs (customer TEXT NOT NULL, number INTEGER NOT NULL, kind INTEGER NOT NULL, \
    size INTEGER NOT NULL, deck BLOB NOT NULL, loaded BLOB NOT NULL, held INTEGER NOT NULL, \
    collected INTEGER NOT NULL, PRIMARY KEY (customer, number)) STRICT;
    CREATE TABLE stretches (customer TEXT NOT NULL, number INTEGER NOT NULL, place INTEGER NOT \
    NULL, switches INTEGER NOT NULL, granted INTEGER NOT NULL, PRIMARY KEY (customer, number, \
    place), FOREIGN KEY (customer, number) REFERENCES jobs (customer, number)) STRICT;
    CREATE TABLE pictures (customer TEXT NOT NULL, number INTEGER NOT NULL, storage BLOB NOT \
    NULL, i INTEGER NOT NULL, a INTEGER NOT NULL, b INTEGER NOT NULL, compare INTEGER NOT NULL, \
    overflow INTEGER NOT NULL, channel INTEGER NOT NULL, waiting INTEGER NOT NULL, form INTEGER \
    NOT NULL, line INTEGER NOT NULL, taken INTEGER NOT NULL, cards INTEGER NOT NULL, lines \
    INTEGER NOT NULL, standing INTEGER NOT NULL, PRIMARY KEY (customer, number), FOREIGN KEY \
    (customer, number) REFERENCES jobs (customer, number)) STRICT;
    CREATE TABLE cards (customer TEXT NOT NULL, number INTEGER NOT NULL, place INTEGER NOT NULL, \
    card BLOB NOT NULL, PRIMARY KEY (customer, number, place), FOREIGN KEY (customer, number) \
    REFERENCES jobs (customer, number)) STRICT;
    CREATE TABLE lines (customer TEXT NOT NULL, number INTEGER NOT NULL, place INTEGER NOT NULL, \
    form INTEGER NOT NULL, line INTEGER NOT NULL, image BLOB NOT NULL, PRIMARY KEY (customer, \
    number, place), FOREIGN KEY (customer, number) REFERENCES jobs (customer, number)) STRICT;
    CREATE TABLE states (customer TEXT NOT NULL, number INTEGER NOT NULL, i INTEGER NOT NULL, a \
    INTEGER NOT NULL, b INTEGER NOT NULL, compare INTEGER NOT NULL, overflow INTEGER NOT NULL, \
    channel INTEGER NOT NULL, waiting INTEGER NOT NULL, form INTEGER NOT NULL, line INTEGER NOT \
    NULL, taken INTEGER NOT NULL, cards INTEGER NOT NULL, lines INTEGER NOT NULL, standing \
    INTEGER NOT NULL, PRIMARY KEY (customer, number), FOREIGN KEY (customer, number) REFERENCES \
    jobs (customer, number)) STRICT;
    CREATE TABLE pages (customer TEXT NOT NULL, number INTEGER NOT NULL, page INTEGER NOT NULL, \
    storage BLOB NOT NULL, PRIMARY KEY (customer, number, page), FOREIGN KEY (customer, number) \
    REFERENCES jobs (customer, number)) STRICT;
    CREATE TABLE profiles (customer TEXT NOT NULL, number INTEGER NOT NULL, profile INTEGER NOT \
    NULL, chosen INTEGER NOT NULL, PRIMARY KEY (customer, number), FOREIGN KEY (customer, \
    number) REFERENCES jobs (customer, number)) STRICT;
    CREATE TABLE pockets (customer TEXT NOT NULL, number INTEGER NOT NULL, place INTEGER NOT \
    NULL, pocket INTEGER NOT NULL, PRIMARY KEY (customer, number, place), FOREIGN KEY (customer, \
    number, place) REFERENCES cards (customer, number, place)) STRICT;
    INSERT INTO bureau (id, version) VALUES (1, 4);
    COMMIT";

/// Makes the tables those of version 1. Each job has its storage as a whole in `pictures`: two
/// hexadecimal digits for each of 1400 positions, and `~` for 50 that are blank.
const MADE_FIRST: &str = "\
    BEGIN;
    DROP TABLE pockets;
    DROP TABLE profiles;
    INSERT INTO pictures SELECT customer, number, x'\
    005626292334~~~00000000000000000000000000000000000000000000000000000000000000000000000000000\
    00000000000001626292334~~00000000000000000000000000000000000000000000000000000051030302515B0\
    A0A0141640A080A02080A427203060A31720304027B40~~~~~~~~~~~~~~~~~~~~000000000000000000000000000\
    0000000000000000000000000000000000000000000000000\
    ', i, a, b, compare, overflow, channel, waiting, form, line, taken, cards, lines, standing \
    FROM states WHERE customer = 'ACME';
    INSERT INTO pictures SELECT customer, number, x'\
    005B0A0A080A01055B0A02020A02095B0A030A0A03015B0A03020A03034444447B40~~~~~~~~~~~~~~~~~~~~~~~~\
    ~~~00000000000000000000000000000000\
    ', i, a, b, compare, overflow, channel, waiting, form, line, taken, cards, lines, standing \
    FROM states WHERE customer = 'ZETA';
    DROP TABLE pages;
    DROP TABLE states;
    UPDATE bureau SET version = 1;
    COMMIT";

/// Makes the tables those of version 2, where each page has a row, also one that is blank. The
/// first job has rows of pages 0, 2 and 3, and the second one of page 0.
const MADE_SECOND: &str = "\
    BEGIN;
    DROP TABLE pockets;
    DROP TABLE profiles;
    DROP TABLE pictures;
    INSERT INTO pages SELECT customer, number, 1, x'~~' FROM jobs;
    INSERT INTO pages SELECT customer, number, 4, storage FROM pages WHERE page = 1;
    INSERT INTO pages SELECT customer, number, 5, storage FROM pages WHERE page = 1;
    INSERT INTO pages SELECT customer, number, 6, storage FROM pages WHERE page = 1;
    INSERT INTO pages SELECT customer, number, 7, storage FROM pages WHERE page = 1;
    INSERT INTO pages SELECT customer, number, 8, storage FROM pages WHERE page = 1;
    INSERT INTO pages SELECT customer, number, 9, storage FROM pages WHERE page = 1;
    INSERT INTO pages SELECT customer, number, 10, storage FROM pages WHERE page = 1;
    INSERT INTO pages SELECT customer, number, 11, storage FROM pages WHERE page = 1;
    INSERT INTO pages SELECT customer, number, 12, storage FROM pages WHERE page = 1;
    INSERT INTO pages SELECT customer, number, 13, storage FROM pages WHERE page = 1;
    INSERT INTO pages SELECT customer, number, 2, storage FROM pages WHERE page = 1 AND \
    customer = 'ZETA';
    INSERT INTO pages SELECT customer, number, 3, storage FROM pages WHERE page = 1 AND \
    customer = 'ZETA';
    UPDATE bureau SET version = 2;
    COMMIT";

/// Makes the tables those of version 3.
const MADE_THIRD: &str = "\
    BEGIN;
    DROP TABLE pockets;
    DROP TABLE profiles;
    DROP TABLE pictures;
    UPDATE bureau SET version = 3;
    COMMIT";

/// The statements that make the tables of the two jobs those of an older version. None of them had
/// profiles.
pub(crate) fn made_old(alloc: Global, version: u32) -> Result<String, Fail> {
    let statements = match version {
        1 => MADE_FIRST,
        2 => MADE_SECOND,
        _ => MADE_THIRD,
    };
    Ok(statements.replace(alloc, "~", &"00".repeat(alloc, 50)?)?)
}
