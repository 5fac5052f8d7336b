//! Addresses that are read, written, indexed, looked up and stored: sheets of steps.

/// Bases and tags, which the index locations show: the first has 1, the second 20 and the third
/// 300. Then characters without a value; one of these is enough. Where an address has the sign that
/// separates places, the first step writes it into the second one.
pub(crate) const READ: &str = "\
16000 positions, A 10 B 20|~BI99~|87 001|92 020|97 300| -> I 3999 A 3999 B 404 |001|020|300|
16000 positions, 2 steps, A 10 B 1000|~H407~B000~|87 001|92 020|97 300| \
    -> I 1000 A 1000 B 408 |001|020|300|
16000 positions, A 10 B 20|~B00!~|87 001|92 020|97 300| -> I 8000 A 8000 B 404 |001|020|300|
16000 positions, A 10 B 20|~BI9I~|87 001|92 020|97 300| -> I 15999 A 15999 B 404 |001|020|300|
16000 positions, A 10 B 20|~B000~|87 001|92 020|97 300| -> I 0 A 0 B 404 |001|020|300|
16000 positions, A 10 B 20|~B   ~|87 001|92 020|97 300| -> I 0 A 0 B 404 |001|020|300|
16000 positions, A 10 B 20|~B0/5~|87 001|92 020|97 300| -> I 16 A 16 B 404 |001|020|300|
16000 positions, A 10 B 20|~B3J5~|87 001|92 020|97 300| -> I 335 A 335 B 404 |001|020|300|
16000 positions, A 10 B 20|~B0?0~|87 001|92 020|97 300| -> I 300 A 300 B 404 |001|020|300|
16000 positions, A 10 B 20|~B#00~|87 001| -> Check(Address) I 400 A 10 B 20 |001|
16000 positions, A 10 B 20|~B0@0~|87 001| -> Check(Address) I 400 A 10 B 20 |001|
16000 positions, A 10 B 20|~B00.~|87 001| -> Check(Address) I 400 A 10 B 20 |001|
";

/// The same bases, as they are written.
pub(crate) const WRITTEN: &str = "\
A 10 B 3999|~H500~|497     | -> I 404 A 497 B 3999 | I99|
A 10 B 1000|~H500~|497     | -> I 404 A 497 B 1000 | |00|
A 10 B 8000|~H500~|497     | -> I 404 A 497 B 8000 | 00!|
A 10 B 15999|~H500~|497     | -> I 404 A 497 B 15999 | I9I|
A 10 B 0|~H500~|497     | -> I 404 A 497 B 0 | 000|
A 10 B 15|~H500~|497     | -> I 404 A 497 B 15 | 015|
A 10 B 315|~H500~|497     | -> I 404 A 497 B 315 | 315|
";

/// Sums below and past 16000, a tag in the location itself, an unreadable location, and an address
/// without a tag.
pub(crate) const INDEXED: &str = "\
A 10 B 20|~B3J5~|92 005| -> I 320 A 320 B 404 |005|
A 10 B 20|~B3J5~|92 0/5| -> I 330 A 330 B 404 |0/5|
A 10 B 20|~B3J5~|92 I9I| -> I 314 A 314 B 404 |I9I|
A 10 B 20|~B3J5~|92 0#5| -> Check(Address) I 400 A 10 B 20 |0#5|
A 10 B 20|~B315~|92 0#5| -> I 315 A 315 B 404 |0#5|
";

/// Addresses inside the storage, at which a mark is set, and past its end; the last two are indexed
/// past 15999.
pub(crate) const OPERANDS: &str = "\
4000 positions, A 10 B 20|~,I99~|87 091|3999  | -> I 404 A 3998 B 3998 |091|~ |
4000 positions, A 10 B 20|~,00!~|87 091| -> Check(Address) I 400 A 10 B 20 |091|
4000 positions, A 10 B 20|~,I9I~|87 091| -> Check(Address) I 400 A 10 B 20 |091|
4000 positions, A 10 B 20|~,#00~|87 091| -> Check(Address) I 400 A 10 B 20 |091|
4000 positions, A 10 B 20|~,I?9~|87 091|3909  | -> I 404 A 3908 B 3908 |091|~ |
4000 positions, A 10 B 20|~,I/9~|87 091| -> Check(Address) I 400 A 10 B 20 |091|
8000 positions, A 10 B 20|~,I/9~|87 091|4010  | -> I 404 A 4009 B 4009 |091|~ |
8000 positions, A 10 B 20|~,I9Z~|87 091|7999  | -> I 404 A 7998 B 7998 |091|~ |
8000 positions, A 10 B 20|~,00!~|87 091| -> Check(Address) I 400 A 10 B 20 |091|
8000 positions, A 10 B 20|~,I/Z~|87 091| -> Check(Address) I 400 A 10 B 20 |091|
12000 positions, A 10 B 20|~,00!~|87 091|8000  | -> I 404 A 7999 B 7999 |091|~ |
12000 positions, A 10 B 20|~,I/Z~|87 091|8010  | -> I 404 A 8009 B 8009 |091|~ |
12000 positions, A 10 B 20|~,I9R~|87 091|11999  | -> I 404 A 11998 B 11998 |091|~ |
12000 positions, A 10 B 20|~,00?~|87 091| -> Check(Address) I 400 A 10 B 20 |091|
16000 positions, A 10 B 20|~,00!~|87 091|8000  | -> I 404 A 7999 B 7999 |091|~ |
16000 positions, A 10 B 20|~,00?~|87 091|12000  | -> I 404 A 11999 B 11999 |091|~ |
16000 positions, A 10 B 20|~,I9I~|87 091|15999  | -> I 404 A 15998 B 15998 |091|~ |
16000 positions, A 10 B 20|~,#00~|87 091| -> Check(Address) I 400 A 10 B 20 |091|
16000 positions, A 10 B 20|~,I/I~|87 091|10  | -> I 404 A 9 B 9 |091|~ |
A 10 B 20|~,I/I~|87 091|10  | -> I 404 A 9 B 9 |091|~ |
";

/// Numbers stored at the beginning of the storage, and without room for them.
pub(crate) const STORED: &str = "\
A 10 B 200|~H002~|0     | -> I 404 A 15999 B 200 |200 |
A 10 B 200|~H001~|0     | -> Check(Address) I 400 A 10 B 200 |    |
A 10 B 200|~HU00~|1397    | -> Check(Address) I 400 A 10 B 200 |   |
";
