//! Scripts whose reader or writer gives and takes little, or fails.

use crate::doors::{Call, script_of, told_by};
use crate::submissions::OneCard;
use std::test::Fail;

/// A job that comes to a check with its second instruction.
const CHECKED: OneCard = OneCard {
    size: 4000,
    switches: "A",
    card: ",008015L000200",
};

/// The commands after its submission: it is run, held and asked for.
const COMMANDS: &str = "slice ACME 9 34\nhold ACME 9\nhold ACME 9\nstanding ACME 9\n";

/// The output: a line for each command, the last one of the most pieces.
const OUTPUT: [&str; 5] = [
    "taken 1\n",
    "ran 1 check ADDRESS at 8\n",
    "held\n",
    "refused 25\n",
    "standing check ADDRESS at 8 held 1 collected 0 granted 34 cards 0 lines 0\n",
];

/// A script that asks a bureau without jobs, and what comes of it.
const QUESTIONS: &[u8] = b"queue\njobs ACME\n";

const NO_JOBS: &str = "Scripted { acknowledged: 2, sent: 11, refused: false, ended: Whole }: \
    queue\njobs\n, 0 left\n0 ticks, broken false";

#[test]
fn nothing_is_applied_where_the_reader_fails(rt: HostRuntime) -> Result<(), Fail> {
    let alloc = rt.alloc();
    let script = CHECKED.script(alloc, COMMANDS)?;
    let wanted = format!(in alloc;
        "Scripted {{ acknowledged: 0, sent: 0, refused: false, ended: ReadFailed }}: , 0 left\n\
        {NO_JOBS}"
    )?;
    for count in 0..=script.len() {
        let bytes = script.as_str().as_bytes().get(..count).ok_or("bytes")?;
        let torn = Call {
            is_torn: true,
            ..script_of(bytes)
        };
        let told = told_by(alloc, "", &[torn, script_of(QUESTIONS)])?;
        assert_eq!(rt; told.as_str(), wanted.as_str(), "{count} bytes");
    }
    Ok(())
}

/// The script ends within its first line, or within the card or before it.
#[test]
fn nothing_is_applied_where_the_script_ends_too_early(rt: HostRuntime) -> Result<(), Fail> {
    let alloc = rt.alloc();
    let script = CHECKED.script(alloc, COMMANDS)?;
    for count in 1..111 {
        let line = if count < 30 { 1 } else { 2 };
        let bytes = script.as_str().as_bytes().get(..count).ok_or("bytes")?;
        assert_eq!(rt;
            told_by(alloc, "", &[script_of(bytes), script_of(QUESTIONS)])?,
            format!(in alloc;
                "Scripted {{ acknowledged: 0, sent: 11, refused: false, ended: Bad }}: \
                bad line {line}\n, 0 left\n{NO_JOBS}"
            )?,
            "{count} bytes"
        );
    }
    Ok(())
}

/// The number of commands that are acknowledged when so many bytes of their lines went out: that
/// whose line is cut is acknowledged too.
fn acknowledged(room: usize) -> usize {
    let (mut count, mut end) = (0usize, 0usize);
    for line in OUTPUT {
        if end <= room {
            count = count.saturating_add(1);
        }
        end = end.saturating_add(line.len());
    }
    count
}

#[test]
fn what_went_out_is_counted(rt: HostRuntime) -> Result<(), Fail> {
    let alloc = rt.alloc();
    let script = CHECKED.script(alloc, COMMANDS)?;
    let mut output = String::new(alloc);
    for line in OUTPUT {
        output.push_str(line)?;
    }
    for room in 0..=output.len() {
        let ended = if room < output.len() {
            "WriteFailed"
        } else {
            "Whole"
        };
        let taken = output.as_str().get(..room).ok_or("lines")?;
        for is_full in [false, true] {
            let call = Call {
                room,
                is_full,
                ..script_of(script.as_str().as_bytes())
            };
            let (count, ticks) = (acknowledged(room), if room < 8 { 0 } else { 2 });
            assert_eq!(rt;
                told_by(alloc, "", &[call])?,
                format!(in alloc;
                    "Scripted {{ acknowledged: {count}, sent: {room}, refused: {}, \
                    ended: {ended} }}: {taken}, 0 left\n{ticks} ticks, broken false",
                    count >= 4
                )?
            );
        }
    }
    Ok(())
}

/// A line that says that the script is bad, cut after each of its bytes.
#[test]
fn what_went_out_of_a_bad_line_is_counted(rt: HostRuntime) -> Result<(), Fail> {
    let alloc = rt.alloc();
    let line = "bad line 12\n";
    let script = format!(in alloc; "{}\n", "queue\n".repeat(alloc, 11)?)?;
    for room in 0..line.len() {
        let call = Call {
            room,
            ..script_of(script.as_str().as_bytes())
        };
        let taken = line.get(..room).ok_or("a line")?;
        assert_eq!(rt;
            told_by(alloc, "", &[call])?,
            format!(in alloc;
                "Scripted {{ acknowledged: 0, sent: {room}, refused: false, \
                ended: WriteFailed }}: {taken}, 0 left\n0 ticks, broken false"
            )?
        );
    }
    Ok(())
}
