//! Telling a log that was damaged from one that was not written to its end.
//!
//! Two bytes of a log are written last, once the disk keeps what they stand for: the first of its
//! header, and the gate of a commit, byte 8 of the first of its frames. Both are taken away before
//! anything else is written there. So no stop leaves an unsound header behind its first byte, or an
//! unsound commit behind an open gate.

ghost use Rattle.std.specs.Prelude.{min, ◌≡◌, ◌≢◌, ◌⊎◌, ◌+◌, ◌-◌, ◌/◌, ◌^◌, ◌<◌, ◌≤◌, ◌↔◌, ℕ, length, slice_index, IsTrue, IfErr, IfOk, IfSome, MatchOption};
ghost use Rattle.sqlite_disk.specs.Disk.{CountsFault};
ghost use Rattle.sqlite_wal.specs.{
  Format.{be32, IsSigned, part},
  Outcome.{HasCause, OnlyIf},
  PageSize.{bytes_of},
  Reads.{IsClean, OnlyReads},
  Recovery.{frame_at, header},
};
ghost use Rattle.database_files.specs.Damage.{HasGateOpen, HasHeaderBegun, IsDamaged, IsDamagedAs, IsFirstEnd, IsFollowed, IsFull, IsKeptAs, IsTorn, WasKept, frames_in};

use sqlite_disk::Disk;
use sqlite_wal::{Error, PageSize, checksum_of, probe_frames};
use std::alloc::Global;
use std::io;

/// The bytes of a log's header.
const HEADER: usize = 32;

/// The bytes of a frame before those of its page.
const FRAME_HEADER: usize = 24;

/// The place of the gate in a frame.
const GATE: usize = 8;

/// The first byte of a header.
const FIRST: u8 = 0x37;

/// The place of the salt in a header, whose first byte opens the gates.
const SALT: usize = 16;

/// What of a log is damaged.
#[derive(Clone, Copy)]
pub enum Damage {
    /// Its header.
    Header,
    /// The commit that begins behind the first `sound` of its `frames` frames.
    Commit { sound: usize, frames: usize },
}

/// The number in four bytes, the highest first.
fn number_at(bytes: &[u8; 32], at: usize) -> u32
    requires { at + 4 ≤ 32 }
    ensures { result ≡ be32 bytes.now at }
{
    bytes[at] as u32 * 0x100_0000
        + bytes[at + 1] as u32 * 0x1_0000
        + bytes[at + 2] as u32 * 0x100
        + bytes[at + 3] as u32
}

/// Whether a header is sound: it begins as one does, and ends in the sum of its other bytes.
fn is_signed(head: &[u8; 32]) -> bool
    ensures { IsTrue result ↔ IsSigned head.now }
{
    if head[0] != FIRST || head[1] != 0x7f || head[2] != 0x06 {
        return false;
    }
    if head[3] != 0x82 && head[3] != 0x83 {
        return false;
    }
    let stored = (number_at(head, 24), number_at(head, 28));
    checksum_of(head[3] == 0x83, (0, 0), &head[..24]) == stored
}

/// The header of a log that is long enough for a frame, if the header's first byte is there.
fn read_header<D: Disk>(log: &mut D) -> io::Result<Option<[u8; 32]>>
    requires { IsTrue (D.Disk.is_usable log.old) }
    ensures ok { IfOk result (λ found. IsClean D.Disk log.new → MatchOption found
        (¬ HasHeaderBegun (D.Disk.seen log.old))
        (λ head. HasHeaderBegun (D.Disk.seen log.old) × (head ≡ header (D.Disk.seen log.old)))) }
    ensures faults { CountsFault result (D.Disk.faults log.old) (D.Disk.faults log.new) }
    ensures same { OnlyReads D.Disk log.old log.new }
{
    if log.len()? < HEADER + FRAME_HEADER {
        return Ok(None);
    }
    let mut head = [0; 32];
    log.read_at(0, &mut head)?;
    if head[0] != FIRST {
        return Ok(None);
    }
    Ok(Some(head))
}

/// Where the gate of the frame behind so many others is.
fn gate_of(size: PageSize, frames: usize) -> usize
    ensures { result ≡ min (frame_at (bytes_of size) frames + 8) 0xffff_ffff_ffff_ffff }
{
    frames
        .saturating_mul(FRAME_HEADER + size.bytes())
        .saturating_add(HEADER + GATE)
}

/// Whether the gate of the frame behind so many others is open.
fn is_gate_open<D: Disk>(log: &mut D, size: PageSize, frames: usize, key: u8) -> io::Result<bool>
    requires usable { IsTrue (D.Disk.is_usable log.old) }
    requires size { IsClean D.Disk log.old → bytes_of size ≡ be32 (D.Disk.seen log.old) 8 }
    requires key { IsClean D.Disk log.old → key ≡ slice_index (D.Disk.seen log.old) 16 }
    ensures ok { IfOk result (λ is_open. IsClean D.Disk log.new
        → (IsTrue is_open ↔ HasGateOpen (D.Disk.seen log.old) frames)) }
    ensures faults { CountsFault result (D.Disk.faults log.old) (D.Disk.faults log.new) }
    ensures same { OnlyReads D.Disk log.old log.new }
{
    let gate = gate_of(size, frames);
    if log.len()? <= gate {
        return Ok(false);
    }
    let mut byte = [0];
    log.read_at(gate, &mut byte)?;
    Ok(byte[0] == key)
}

/// How many whole frames a log of this length has room for.
fn frames_in(size: PageSize, length: usize) -> usize
    ensures { result ≡ (length - 32) / (24 + bytes_of size) }
{
    length.saturating_sub(HEADER) / (FRAME_HEADER + size.bytes())
}

/// The beginning of the frame behind so many others: its header, and eight bytes of its page.
fn read_frame<D: Disk>(log: &mut D, size: PageSize, frames: usize) -> io::Result<[u8; 32]>
    requires usable { IsTrue (D.Disk.is_usable log.old) }
    requires size { IsClean D.Disk log.old → bytes_of size ≡ be32 (D.Disk.seen log.old) 8 }
    requires within { IsClean D.Disk log.old → frames < frames_in (D.Disk.seen log.old) }
    requires fits { IsClean D.Disk log.old → length (D.Disk.seen log.old) < 2 ^ 64 }
    ensures ok { IfOk result (λ frame. IsClean D.Disk log.new → frame
        ≡ part (D.Disk.seen log.old) (frame_at (be32 (D.Disk.seen log.old) 8) frames) 32) }
    ensures faults { CountsFault result (D.Disk.faults log.old) (D.Disk.faults log.new) }
    ensures same { OnlyReads D.Disk log.old log.new }
{
    let mut frame = [0; 32];
    log.read_at(gate_of(size, frames).saturating_sub(GATE), &mut frame)?;
    Ok(frame)
}

/// Whether a frame has the salt of the header.
fn has_salt(frame: &[u8; 32], head: &[u8; 32]) -> bool
    ensures { IsTrue result ↔ ((be32 frame.now 8 ≡ be32 head.now 16)
        × (be32 frame.now 12 ≡ be32 head.now 20)) }
{
    number_at(frame, 8) == number_at(head, SALT) && number_at(frame, 12) == number_at(head, 20)
}

/// Whether a commit ends with a frame.
fn ends_commit(frame: &[u8; 32], head: &[u8; 32]) -> bool
    ensures { IsTrue result ↔ (((be32 frame.now 8 ≡ be32 head.now 16)
        × (be32 frame.now 12 ≡ be32 head.now 20)) × (be32 frame.now 4 ≢ 0)) }
{
    has_salt(frame, head) && number_at(frame, 4) != 0
}

/// The first of the frames behind so many others, up to a bound, with which a commit ends.
fn first_end<D: Disk>(
    log: &mut D,
    size: PageSize,
    frames: usize,
    bound: usize,
    head: &[u8; 32],
) -> io::Result<Option<usize>>
    requires usable { IsTrue (D.Disk.is_usable log.old) }
    requires size { IsClean D.Disk log.old → bytes_of size ≡ be32 (D.Disk.seen log.old) 8 }
    requires within { IsClean D.Disk log.old → bound ≤ frames_in (D.Disk.seen log.old) }
    requires fits { IsClean D.Disk log.old → length (D.Disk.seen log.old) < 2 ^ 64 }
    requires head { IsClean D.Disk log.old → head.now ≡ header (D.Disk.seen log.old) }
    ensures ok { IfOk result (λ found. IsClean D.Disk log.new
        → IsFirstEnd (D.Disk.seen log.old) frames bound found) }
    ensures below { IfOk result (λ found. IfSome found (λ last. last < bound)) }
    ensures faults { CountsFault result (D.Disk.faults log.old) (D.Disk.faults log.new) }
    ensures same { OnlyReads D.Disk log.old log.new }
{
    for at in frames..bound {
        let frame = read_frame(log, size, at)?;
        if ends_commit(&frame, head) {
            return Ok(Some(at));
        }
    }
    Ok(None)
}

/// Whether the first commit that ends behind so many frames is followed by a frame.
fn is_followed<D: Disk>(
    log: &mut D,
    size: PageSize,
    frames: usize,
    head: &[u8; 32],
) -> io::Result<bool>
    requires usable { IsTrue (D.Disk.is_usable log.old) }
    requires size { IsClean D.Disk log.old → bytes_of size ≡ be32 (D.Disk.seen log.old) 8 }
    requires head { IsClean D.Disk log.old → head.now ≡ header (D.Disk.seen log.old) }
    ensures ok { IfOk result (λ followed. IsClean D.Disk log.new
        → (IsTrue followed ↔ IsFollowed (D.Disk.seen log.old) frames)) }
    ensures faults { CountsFault result (D.Disk.faults log.old) (D.Disk.faults log.new) }
    ensures same { OnlyReads D.Disk log.old log.new }
{
    let bound = frames_in(size, log.len()?).saturating_sub(1);
    let Some(last) = first_end(log, size, frames, bound, head)? else {
        return Ok(false);
    };
    let next = read_frame(log, size, last + 1)?;
    Ok(has_salt(&next, head))
}

/// The damage of the commit behind so many frames, if it was whole once.
fn find_kept<D: Disk>(
    log: &mut D,
    size: PageSize,
    sound: usize,
    head: &[u8; 32],
) -> io::Result<Option<Damage>>
    requires usable { IsTrue (D.Disk.is_usable log.old) }
    requires size { IsClean D.Disk log.old → bytes_of size ≡ be32 (D.Disk.seen log.old) 8 }
    requires head { IsClean D.Disk log.old → head.now ≡ header (D.Disk.seen log.old) }
    requires key { IsClean D.Disk log.old
        → slice_index head.now 16 ≡ slice_index (D.Disk.seen log.old) 16 }
    ensures ok { IfOk result (λ found. IsClean D.Disk log.new → MatchOption found
        (¬ WasKept (D.Disk.seen log.old) sound) (IsKeptAs (D.Disk.seen log.old) sound)) }
    ensures faults { CountsFault result (D.Disk.faults log.old) (D.Disk.faults log.new) }
    ensures same { OnlyReads D.Disk log.old log.new }
{
    if !is_gate_open(log, size, sound, head[SALT])? {
        return Ok(None);
    }
    if !is_followed(log, size, sound, head)? {
        return Ok(None);
    }
    let frames = frames_in(size, log.len()?);
    Ok(Some(Damage::Commit { sound, frames }))
}

/// Whether recovery refuses a log, which is then opened by nobody.
fn is_refusal(error: &Error) -> bool
    ensures { IsTrue result ↔ (error.now ≡ Error.Corrupt) }
{
    match error {
        Error::Corrupt => true,
        _ => false,
    }
}

/// The damage of a log behind its sound header, if it has some.
fn find_behind<D: Disk>(
    alloc: Global,
    log: &mut D,
    head: &[u8; 32],
) -> Result<Option<Damage>, Error>
    requires usable { IsTrue (D.Disk.is_usable log.old) }
    requires head { IsClean D.Disk log.old → head.now ≡ header (D.Disk.seen log.old) }
    requires begun { IsClean D.Disk log.old → HasHeaderBegun (D.Disk.seen log.old) }
    requires signed { IsSigned head.now }
    ensures ok { IfOk result (λ found. IsClean D.Disk log.new → MatchOption found
        (¬ IsDamaged (D.Disk.seen log.old)) (IsDamagedAs (D.Disk.seen log.old))) }
    ensures cause { IfErr result (λ e. IsClean D.Disk log.new → HasCause (D.Disk.faults log.old)
        (D.Disk.faults log.new) (OnlyIf Error.Full (IsFull (D.Disk.seen log.old))) e) }
    ensures same { OnlyReads D.Disk log.old log.new }
{
    let Some(size) = PageSize::new(number_at(head, 8) as usize) else {
        return Ok(None);
    };
    match probe_frames(alloc, log, size) {
        Ok(numbers) => Ok(find_kept(log, size, numbers.as_slice().len(), head)?),
        Err(error) if is_refusal(&error) => Ok(None),
        Err(error) => Err(error),
    }
}

/// Returns what of a log is damaged, if it is. Nothing is written. Fails if a read fails, for want
/// of memory, or if the log has more frames than 32 bits number.
pub fn find_damage<D: Disk>(alloc: Global, log: &mut D) -> Result<Option<Damage>, Error>
    requires { IsTrue (D.Disk.is_usable log.old) }
    ensures ok { IfOk result (λ found. IsClean D.Disk log.new → MatchOption found
        (¬ IsDamaged (D.Disk.seen log.old)) (IsDamagedAs (D.Disk.seen log.old))) }
    ensures cause { IfErr result (λ e. IsClean D.Disk log.new → HasCause (D.Disk.faults log.old)
        (D.Disk.faults log.new) (OnlyIf Error.Full (IsFull (D.Disk.seen log.old))) e) }
    ensures same { OnlyReads D.Disk log.old log.new }
{
    let Some(head) = read_header(log)? else {
        return Ok(None);
    };
    if !is_signed(&head) {
        return Ok(Some(Damage::Header));
    }
    find_behind(alloc, log, &head)
}

/// Whether the gate behind the frames is open that recovery takes of a log with a header.
fn has_open_end<D: Disk>(alloc: Global, log: &mut D, head: &[u8; 32]) -> Result<bool, Error>
    requires usable { IsTrue (D.Disk.is_usable log.old) }
    requires head { IsClean D.Disk log.old → head.now ≡ header (D.Disk.seen log.old) }
    requires begun { IsClean D.Disk log.old → HasHeaderBegun (D.Disk.seen log.old) }
    ensures ok { IfOk result (λ torn. IsClean D.Disk log.new
        → (IsTrue torn ↔ IsTorn (D.Disk.seen log.old))) }
    ensures same { OnlyReads D.Disk log.old log.new }
{
    let Some(size) = PageSize::new(number_at(head, 8) as usize) else {
        return Ok(false);
    };
    let numbers = probe_frames(alloc, log, size)?;
    Ok(is_gate_open(log, size, numbers.as_slice().len(), head[SALT])?)
}

/// Whether a log ends in a commit that recovery does not take though its gate is open: the power
/// went while it was written, or it is damaged. Nothing is written.
pub fn is_torn<D: Disk>(alloc: Global, log: &mut D) -> Result<bool, Error>
    requires { IsTrue (D.Disk.is_usable log.old) }
    ensures ok { IfOk result (λ torn. IsClean D.Disk log.new
        → (IsTrue torn ↔ IsTorn (D.Disk.seen log.old))) }
    ensures same { OnlyReads D.Disk log.old log.new }
{
    let Some(head) = read_header(log)? else {
        return Ok(false);
    };
    has_open_end(alloc, log, &head)
}
