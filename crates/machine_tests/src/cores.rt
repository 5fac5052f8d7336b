//! Storages with their marks, sizes, and registers.
//!
//! The functions are over any kind of storage: the proof of one that names a kind takes many times
//! as long.

use crate::sheets::{Case, check, cut, number};
use crate::storage::{SIZES, code, lay, lay_places, push_places, size_of};
use core_store::{
    Compared, Core, FlagCore, PlaneCore, Registers, Size, changed_pages, cut_length, field_length,
};
use std::alloc::{AllocError, Global};
use std::test::Fail;

/// Marks a position, or clears its mark.
fn put_mark<C: Core>(core: &mut C, position: u16, marked: bool) {
    if position >= core.size() {
        return;
    }
    if marked {
        core.set_mark(position);
    } else {
        core.clear_mark(position);
    }
}

/// Adds a number and a bar; a hyphen if there is none.
fn push_number(text: &mut String, number: Option<u16>) -> Result<(), AllocError> {
    match number {
        Some(number) => write!(text, "{number}|"),
        None => text.push_str("-|"),
    }
}

/// Adds the marks that a storage finds from a position.
fn push_found<C: Core>(text: &mut String, core: &C, position: u16) -> Result<(), AllocError> {
    if position >= core.size() {
        return Ok(());
    }
    push_number(text, core.mark_at_or_below(position))?;
    push_number(text, core.mark_after(position))?;
    push_number(text, core.word_end(position))
}

/// The search for marks. Input: the size of the storage, a position, the marks that are set, and
/// those that are cleared, each after a hyphen. Output: the mark found downwards, the one among the
/// next eight positions, and the end of the word at that position.
struct Marks;

impl Case for Marks {
    fn outcome<C: Core>(alloc: Global, given: &str) -> Result<String, Fail> {
        let (place, marks) = cut(given, "|");
        let (size, position) = cut(place, " ");
        let mut core = C::blank(alloc, size_of(number(size))?)?;
        for word in marks.split_whitespace() {
            let (set, cleared) = cut(word, "-");
            put_mark(&mut core, number(set), true);
            put_mark(&mut core, number(cleared), false);
        }
        let mut text = String::new(alloc);
        push_found(&mut text, &core, number(position))?;
        Ok(text)
    }
}

/// Marks near and far, at both ends, and one that is cleared.
const SEARCHES: &str = "\
1400 1399| -> -|-|-|
1400 1398|0 1399 -> 0|1399|-|
1400 1392|0 1399 -> 0|1399|-|
1400 1390|0 1399 -> 0|-|-|
1400 1398|0 1399 -0 -> -|1399|-|
1400 1398|0 40 1399 -> 40|1399|-|
1400 39|0 40 1399 -> 0|40|-|
1400 32|0 40 1399 -> 0|40|-|
1400 31|0 40 1399 -> 0|-|-|
1400 1391|0 40 1399 -> 40|1399|-|
1400 1396|0 40 1399 -> 40|1399|-|
1400 1399|0 40 1399 -> 1399|-|-|
1400 1398|0 40 1399 -40 -> 0|1399|-|
2000 1999|0 -> 0|-|-|
4000 3999|0 -> 0|-|-|
8000 7999|0 -> 0|-|-|
8000 7998|0 7936 7999 -> 7936|7999|-|
12000 11999|0 -> 0|-|-|
12000 11998|0 11968 11999 -> 11968|11999|-|
16000 15999| -> -|-|-|
16000 15999|0 -> 0|-|-|
16000 15999|0 8000 -> 8000|-|-|
16000 15999|0 15935 -> 15935|-|-|
16000 15999|0 15936 -> 15936|-|-|
16000 15998|0 15983 15999 -> 15983|15999|-|
16000 15991|0 15999 -> 0|15999|-|
16000 15990|0 15999 -> 0|-|-|
16000 15998|0 15999 -0 -> -|15999|-|
";

/// Words of one to nine characters, one that does not begin, and words at the end of storage.
const WORDS: &str = "\
1400 0|0 1 -> 0|1|1|
1400 0|0 7 8 -> 0|7|7|
1400 0|0 8 -> 0|8|8|
1400 0|0 9 -> 0|-|-|
1400 0|8 -> -|8|-|
1400 40|0 40 42 44 -42 -> 40|44|44|
1400 1383|1383 1391 -> 1383|1391|1391|
1400 1384|1384 1392 -> 1384|1392|1392|
1400 1385|1385 1393 -> 1385|1393|1393|
1400 1391|1391 1399 -> 1391|1399|1399|
1400 1390|1390 1399 -> 1390|-|-|
1400 1398|1398 1399 -> 1398|1399|1399|
1400 1398|1399 -> -|1399|-|
1400 1399|1399 -> 1399|-|-|
8000 7991|7991 7999 -> 7991|7999|7999|
8000 7990|7990 7999 -> 7990|-|-|
12000 11984|11984 11992 -> 11984|11992|11992|
12000 11985|11985 11993 -> 11985|11993|11993|
16000 15983|15983 15991 -> 15983|15991|15991|
16000 15984|15984 15992 -> 15984|15992|15992|
16000 15991|15991 15999 -> 15991|15999|15999|
16000 15990|15990 15999 -> 15990|-|-|
16000 15998|15998 15999 -> 15998|15999|15999|
16000 15999|15999 -> 15999|-|-|
";

#[test]
fn marks_and_ends_of_words(rt: HostRuntime) -> Result<(), Fail> {
    check::<Marks>(rt.alloc(), SEARCHES)?;
    check::<Marks>(rt.alloc(), WORDS)
}

/// Whether a storage with one mark finds it from a position, both downwards and among the next
/// eight.
fn finds<C: Core>(core: &C, marked: u16, position: u16) -> bool {
    if position >= core.size() {
        return false;
    }
    let is_below = marked <= position;
    let is_after = position < marked && marked - position <= 8;
    core.mark_at_or_below(position) == (if is_below { Some(marked) } else { None })
        && core.mark_after(position) == (if is_after { Some(marked) } else { None })
}

/// The first position from which a storage with one mark does not find it.
fn first_missed<C: Core>(core: &C, marked: u16) -> Option<u16> {
    for position in 0..core.size() {
        if !finds(core, marked, position) {
            return Some(position);
        }
    }
    None
}

/// Whether a storage without marks finds one that is put at each position in turn, from every
/// position.
fn finds_each<C: Core>(core: &mut C) -> bool {
    for marked in 0..core.size() {
        put_mark(core, marked, true);
        if first_missed(core, marked).is_some() {
            return false;
        }
        put_mark(core, marked, false);
    }
    true
}

/// The search for a mark that is put at each position in turn. Input: the size of the storage.
/// Output: whether the mark is found from every position.
struct EachMark;

impl Case for EachMark {
    fn outcome<C: Core>(alloc: Global, given: &str) -> Result<String, Fail> {
        let mut core = C::blank(alloc, size_of(number(given))?)?;
        let is_found = finds_each(&mut core);
        Ok(format!(in alloc; "{is_found}")?)
    }
}

#[test]
fn each_mark_is_found_from_everywhere(rt: HostRuntime) -> Result<(), Fail> {
    check::<EachMark>(rt.alloc(), "1400 -> true")
}

/// Whether two storages find the same marks from a position.
fn agree<F: Core, P: Core>(flags: &F, planes: &P, position: u16) -> bool {
    position < flags.size()
        && position < planes.size()
        && flags.mark_at_or_below(position) == planes.mark_at_or_below(position)
        && flags.mark_after(position) == planes.mark_after(position)
        && (position < 15 || flags.near_length(position) == planes.near_length(position))
        && flags.word_end(position) == planes.word_end(position)
        && flags.shared_length(position, position) == planes.shared_length(position, position)
        && flags.shared_length(position, position / 2)
            == planes.shared_length(position, position / 2)
}

/// The first position of a storage, from one on, from which another storage finds different marks:
/// of all positions, or of those that are `apart` from each other.
fn difference<F: Core, P: Core>(flags: &F, planes: &P, first: u16, apart: u16) -> Option<u16> {
    for position in first..flags.size() {
        let is_tried = position % apart.max(1) == 0;
        if is_tried && !agree(flags, planes, position) {
            return Some(position);
        }
    }
    None
}

/// Whether two storages, in which 38 positions that are `apart` are marked in turn, find the same
/// marks from all positions, or from those that are `tried` from each other.
fn agree_throughout<F: Core, P: Core>(
    flags: &mut F,
    planes: &mut P,
    apart: u16,
    tried: u16,
) -> bool {
    for turn in 0..38u16 {
        let marked = turn.saturating_mul(apart);
        put_mark(flags, marked, true);
        put_mark(planes, marked, true);
        if difference(flags, planes, 0, tried).is_some() {
            return false;
        }
    }
    true
}

/// The number of positions at the end of a storage that are marked in turn, and from which marks
/// are searched: two chunks of 32 positions, each of which planes search at once, and 31 more.
const LAST: u16 = 95;

/// Whether a storage with two marks finds them from a position that is not below the first one.
fn finds_both<C: Core>(core: &C, first: u16, second: u16, position: u16) -> bool {
    if position >= core.size() {
        return false;
    }
    let below = if second <= position { second } else { first };
    let is_after = position < second && second - position <= 8;
    core.mark_at_or_below(position) == Some(below)
        && core.mark_after(position) == (if is_after { Some(second) } else { None })
}

/// Whether a storage finds its two marks from each of its last positions.
fn finds_from_each<C: Core>(core: &C, first: u16, second: u16) -> bool {
    for position in core.size().saturating_sub(LAST)..core.size() {
        if !finds_both(core, first, second, position) {
            return false;
        }
    }
    true
}

/// Whether both kinds of storage find a mark, wherever it is among their last positions, from each
/// of these, and the mark at `first` from where it is not.
fn find_at_the_end<F: Core, P: Core>(flags: &mut F, planes: &mut P, first: u16) -> bool {
    let end = flags.size();
    put_mark(flags, first, true);
    put_mark(planes, first, true);
    for marked in end.saturating_sub(LAST)..end {
        put_mark(flags, marked, true);
        put_mark(planes, marked, true);
        if !finds_from_each(flags, first, marked)
            || !finds_from_each(planes, first, marked)
            || difference(flags, planes, end.saturating_sub(LAST), 1).is_some()
        {
            return false;
        }
        put_mark(flags, marked, false);
        put_mark(planes, marked, false);
    }
    true
}

/// Whether both kinds of storage of this size find the same marks.
fn throughout<F: Core, P: Core>(
    alloc: Global,
    size: Size,
    apart: u16,
    tried: u16,
) -> Result<bool, AllocError> {
    let mut flags = F::blank(alloc, size)?;
    let mut planes = P::blank(alloc, size)?;
    Ok(agree_throughout(&mut flags, &mut planes, apart, tried))
}

/// Whether both kinds of storage of this size find each mark among their last positions. The other
/// mark is 128 positions, or four chunks of 32, below the last position.
fn ends_agree<F: Core, P: Core>(alloc: Global, size: Size) -> Result<bool, AllocError> {
    let mut flags = F::blank(alloc, size)?;
    let mut planes = P::blank(alloc, size)?;
    let first = size.positions().saturating_sub(129);
    Ok(find_at_the_end(&mut flags, &mut planes, first))
}

/// Where the two kinds of storage find different marks, or wrong ones: in the smallest size, in the
/// largest, or at the end of a size. Empty if they find the same, right marks.
fn misfound<F: Core, P: Core>(alloc: Global) -> Result<&'static str, AllocError> {
    if !throughout::<F, P>(alloc, Size::Positions1400, 37, 1)? {
        return Ok("in the smallest size");
    }
    if !throughout::<F, P>(alloc, Size::Positions16000, 421, 37)? {
        return Ok("in the largest size");
    }
    for size in SIZES {
        if !ends_agree::<F, P>(alloc, size)? {
            return Ok("at the end");
        }
    }
    Ok("")
}

#[test]
fn both_kinds_find_the_same_marks(rt: HostRuntime) -> Result<(), Fail> {
    assert_eq!(rt; misfound::<FlagCore, PlaneCore>(rt.alloc())?, "");
    Ok(())
}

/// Whether there is an `A` at the last position, marked or not, and none before it.
fn ends_with_a<C: Core>(core: &C, is_marked: bool) -> bool {
    let size = core.size();
    size >= 9
        && core.get(size - 1) == code(b'A')
        && core.get_after(size - 9, 8) == code(b'A')
        && core.get_after(size - 9, 7) == code(b' ')
        && core.is_marked(size - 1) == is_marked
}

/// Makes a storage equal to another one, if they are of one size.
fn copy_all<C: Core>(copy: &mut C, core: &C) {
    if copy.size() == core.size() {
        copy.copy_from(core);
    }
}

/// Whether the last position has no mark after a letter was put there, and has both in a copy of
/// the storage after it was marked.
fn keeps<C: Core>(core: &mut C, copy: &mut C, last: u16) -> bool {
    lay(core, last, "A");
    let is_unmarked = ends_with_a(core, false);
    put_mark(core, last, true);
    copy_all(copy, core);
    is_unmarked && ends_with_a(copy, true)
}

/// Copies at once the sixteen characters that end at `from` to those that end at `to`.
fn copy_sixteen<C: Core>(core: &mut C, from: u16, to: u16) {
    if 15 <= from && from < core.size() && 15 <= to && to < core.size() {
        let codes = core.near_codes(from);
        core.put_near_codes(to, codes);
    }
}

/// Copies the last sixteen characters of a storage to its beginning, twice. The first of them is an
/// `A`, and the last a `B` with a mark.
fn copy_to_the_beginning<C: Core>(core: &mut C, last: u16) {
    lay(core, last.saturating_sub(15), "A");
    lay(core, last, "~B");
    put_mark(core, 1, true);
    copy_sixteen(core, last, 15);
    copy_sixteen(core, last, 31);
}

/// Characters and marks. Input: the size of the storage. Output: whether its last position has no
/// mark after a letter was put there, and has both in a copy of the storage after it was marked;
/// and the beginning of a storage to which its last sixteen characters were copied, without their
/// marks.
struct Kept;

impl Case for Kept {
    fn outcome<C: Core>(alloc: Global, given: &str) -> Result<String, Fail> {
        let size = size_of(number(given))?;
        let last = size.positions().saturating_sub(1);
        let mut core = C::blank(alloc, size)?;
        let mut copy = C::blank(alloc, size)?;
        let kept = keeps(&mut core, &mut copy, last);
        let mut core = C::blank(alloc, size)?;
        copy_to_the_beginning(&mut core, last);
        let mut text = format!(in alloc; "{kept} ")?;
        push_places(&mut text, &core, "0 34 characters that are shown here.")?;
        Ok(text)
    }
}

/// Each size.
const SIZES_KEPT: &str = "\
1400 -> true |A~              BA              B  |
2000 -> true |A~              BA              B  |
4000 -> true |A~              BA              B  |
8000 -> true |A~              BA              B  |
12000 -> true |A~              BA              B  |
16000 -> true |A~              BA              B  |
";

#[test]
fn characters_and_marks_are_kept_apart(rt: HostRuntime) -> Result<(), Fail> {
    check::<Kept>(rt.alloc(), SIZES_KEPT)
}

/// Adds the pages in which two storages differ, if they are of one size.
fn push_pages(
    text: &mut String,
    alloc: Global,
    old: &PlaneCore,
    new: &PlaneCore,
) -> Result<(), AllocError> {
    text.push_str("pages|")?;
    if old.size() == new.size() {
        for page in &changed_pages(alloc, old, new)? {
            push_number(text, Some(*page))?;
        }
    }
    Ok(())
}

/// Pages that change. Input: the size of the storage, and the texts at some places. Output: the
/// pages in which it then differs from a blank one.
struct Changed;

impl Case for Changed {
    // Pages are those of planes.
    fn outcome<C: Core>(alloc: Global, given: &str) -> Result<String, Fail> {
        let (size, places) = cut(given, " ");
        let size = size_of(number(size))?;
        let old = PlaneCore::blank(alloc, size)?;
        let mut new = PlaneCore::blank(alloc, size)?;
        lay_places(&mut new, places);
        let mut text = String::new(alloc);
        push_pages(&mut text, alloc, &old, &new)?;
        Ok(text)
    }
}

/// Characters and marks at both ends of pages, in the middle of one, and at the end of storage.
const CHANGES: &str = "\
1400 1399  | -> pages|
1400 99 A|1300 A| -> pages|0|13|
1400 100 ~ |1399 A| -> pages|1|13|
2000 299 ~A~B|1999 ~ | -> pages|2|3|19|
4000 3863 A|3964 A| -> pages|38|39|
8000 7899 A|7999 ~ | -> pages|78|79|
12000 11935 ~ |11936 A| -> pages|119|
16000 0 A|8000 ~ |15899 ~ |15999 A| -> pages|0|80|158|159|
16000 15999 ~ | -> pages|159|
";

#[test]
fn pages_that_change(rt: HostRuntime) -> Result<(), Fail> {
    check::<Changed>(rt.alloc(), CHANGES)
}

/// Adds the lengths of the field at a position, and of its cut.
fn push_lengths<C: Core>(
    text: &mut String,
    core: &C,
    position: u16,
    limit: u16,
) -> Result<(), AllocError> {
    if position >= core.size() || limit == 0 {
        return Ok(());
    }
    push_number(text, field_length(core, position))?;
    push_number(text, cut_length(core, position, limit))
}

/// Fields and cuts. Input: a position and a limit, in a storage with only 010 marked. Output: the
/// length of the field there, and that of the cut to the limit.
struct Cut;

impl Case for Cut {
    fn outcome<C: Core>(alloc: Global, given: &str) -> Result<String, Fail> {
        let (position, limit) = cut(given, " ");
        let mut core = C::blank(alloc, Size::Positions1400)?;
        put_mark(&mut core, 10, true);
        let mut text = String::new(alloc);
        push_lengths(&mut text, &core, number(position), number(limit))?;
        Ok(text)
    }
}

/// Cuts that are shorter than the field, that end at its mark, that have about 16 characters, and
/// that would pass position 0.
const CUTS: &str = "\
14 4 -> 5|4|
14 6 -> 5|5|
25 15 -> 16|15|
25 16 -> 16|16|
25 17 -> 16|16|
26 16 -> 17|16|
26 17 -> 17|17|
26 18 -> 17|17|
9 10 -> -|10|
9 11 -> -|-|
";

#[test]
fn fields_and_cuts(rt: HostRuntime) -> Result<(), Fail> {
    check::<Cut>(rt.alloc(), CUTS)
}

#[test]
fn no_other_sizes(rt: HostRuntime) {
    for positions in [1399, 12_001, 20_000] {
        assert!(rt; Size::of_positions(positions).is_none());
    }
}

/// Registers A and B that are lowered by 5 and by 4, past position 0 too; the others stay.
#[test]
fn registers_are_lowered(rt: HostRuntime) {
    let mut registers = Registers {
        i: 400,
        a: 105,
        b: 3,
        compare: Compared::High,
        overflow: true,
    };
    registers.lower(5, 4);
    assert!(rt; (registers.i, registers.a, registers.b) == (400, 100, 15999));
    assert!(rt; registers.compare == Compared::High && registers.overflow);
}
