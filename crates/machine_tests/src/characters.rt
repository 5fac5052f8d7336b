//! The characters: their glyphs, zones, values, punches and ranks.

use crate::sheets::{Case, check};
use bcd::Code;
use core_store::Core;
use std::alloc::Global;
use std::test::Fail;

/// The number of a character that was read, or 99 if none was.
fn number_of(read: Option<Code>) -> u8 {
    match read {
        Some(code) => code.number(),
        None => 99,
    }
}

/// The numeric value of a character, or `-` if it has none.
fn value_of(code: Code) -> char {
    match code.digit() {
        Some(digit) => (b'0' + digit) as char,
        None => '-',
    }
}

/// A character. Input: its number. Output: its glyph, zone, numeric value, punches in hexadecimal
/// and rank, and the numbers of the characters with its glyph and with its punches.
struct Character;

impl Case for Character {
    fn outcome<C: Core>(alloc: Global, given: &str) -> Result<String, Fail> {
        let number = given.parse::<u8>().ok().unwrap_or(u8::MAX);
        let Some(code) = Code::from_number(number) else {
            return Ok(String::new(alloc));
        };
        let glyph = code.glyph() as char;
        let zone = code.zone();
        let value = value_of(code);
        let punches = code.punches();
        let rank = code.rank();
        let of_glyph = number_of(Code::from_glyph(code.glyph()));
        let of_punches = number_of(Code::of_punches(punches));
        Ok(format!(in alloc;
            "{glyph} {zone:?} {value} {punches:03X} {rank} {of_glyph} {of_punches}"
        )?)
    }
}

/// All characters, as another program lists them.
const CHARACTERS: &str = "\
0 ->   Bare 0 000 0 0 0
1 -> 1 Bare 1 100 55 1 1
2 -> 2 Bare 2 080 56 2 2
3 -> 3 Bare 3 040 57 3 3
4 -> 4 Bare 4 020 58 4 4
5 -> 5 Bare 5 010 59 5 5
6 -> 6 Bare 6 008 60 6 6
7 -> 7 Bare 7 004 61 7 7
8 -> 8 Bare 8 002 62 8 8
9 -> 9 Bare 9 001 63 9 9
10 -> 0 Bare 0 200 54 10 10
11 -> # Bare - 042 20 11 11
12 -> @ Bare - 022 21 12 12
13 -> : Bare - 012 22 13 13
14 -> > Bare - 00A 23 14 14
15 -> \" Bare - 006 24 15 15
16 -> ^ A 0 082 19 16 16
17 -> / A 1 300 13 17 17
18 -> S A 2 280 46 18 18
19 -> T A 3 240 47 19 19
20 -> U A 4 220 48 20 20
21 -> V A 5 210 49 21 21
22 -> W A 6 208 50 22 22
23 -> X A 7 204 51 23 23
24 -> Y A 8 202 52 24 24
25 -> Z A 9 201 53 25 25
26 -> | A 0 282 45 26 26
27 -> , A - 242 14 27 27
28 -> % A - 222 15 28 28
29 -> = A - 212 16 29 29
30 -> \\ A - 20A 17 30 30
31 -> + A - 206 18 31 31
32 -> - B 0 400 12 32 32
33 -> J B 1 500 36 33 33
34 -> K B 2 480 37 34 34
35 -> L B 3 440 38 35 35
36 -> M B 4 420 39 36 36
37 -> N B 5 410 40 37 37
38 -> O B 6 408 41 38 38
39 -> P B 7 404 42 39 39
40 -> Q B 8 402 43 40 40
41 -> R B 9 401 44 41 41
42 -> ! B 0 600 35 42 42
43 -> $ B - 442 7 43 43
44 -> * B - 422 8 44 44
45 -> ] B - 412 9 45 45
46 -> ; B - 40A 10 46 46
47 -> _ B - 406 11 47 47
48 -> & AB 0 800 6 48 48
49 -> A AB 1 900 26 49 49
50 -> B AB 2 880 27 50 50
51 -> C AB 3 840 28 51 51
52 -> D AB 4 820 29 52 52
53 -> E AB 5 810 30 53 53
54 -> F AB 6 808 31 54 54
55 -> G AB 7 804 32 55 55
56 -> H AB 8 802 33 56 56
57 -> I AB 9 801 34 57 57
58 -> ? AB 0 A00 25 58 58
59 -> . AB - 842 1 59 59
60 -> ) AB - 822 2 60 60
61 -> [ AB - 812 3 61 61
62 -> < AB - 80A 4 62 62
63 -> } AB - 806 5 63 63
";

#[test]
fn all_as_listed(rt: HostRuntime) -> Result<(), Fail> {
    assert!(rt; CHARACTERS.lines().count() == 64);
    check::<Character>(rt.alloc(), CHARACTERS)
}

/// The number of patterns of punches that are read as characters with these punches.
fn patterns_read() -> u16 {
    let mut read = 0u16;
    for pattern in 0..4096 {
        if let Some(code) = Code::of_punches(pattern) {
            if code.punches() == pattern {
                read = read.saturating_add(1);
            }
        }
    }
    read
}

#[test]
fn what_is_no_character(rt: HostRuntime) {
    assert!(rt; patterns_read() == 64);
    assert!(rt; number_of(Code::of_punches(0xFFF)) == 99);
    assert!(rt; number_of(Code::from_glyph(b'a')) == 99);
    assert!(rt; number_of(Code::from_number(64)) == 99);
    assert!(rt; Code::blank().glyph() == b' ');
}
