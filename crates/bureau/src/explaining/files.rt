//! Explanations of what hinders files, ports and outputs.

use crate::explaining::told::Told;
use command_line::{tell_fault_row, tell_refusal_row};
use ledger_files::{find_fault, find_hindrance};
use ledger_tables::OpenFault;
use std::fs::File;
use std::io::{ErrorKind, Write};
use std::net::{Ipv4Addr, SocketAddrV4, TcpListener};
use std::{fs, io};

/// What is said where nothing hinders the file that is read, so that what is written must fail.
const OUTPUT: &str = "the output could not be written: its disk is full, or its reader has ended";

/// What is said of a file that could not be written, where its folder is there.
const UNWRITTEN: &str = "it could not be written: you may not write there, or its disk is full; \
                         ls -ld and df show which";

/// Prints the row of the help on the fault of a number, as a line behind a name.
pub(crate) fn tell_fault<E: Write>(errors: &mut E, name: &str, number: u32) -> io::Result<()> {
    write!(errors, "{name}: ")?;
    tell_fault_row(errors, number)?;
    writeln!(errors)
}

/// Prints the row of the help on the refusal of a number, as a line.
pub(crate) fn tell_refusal<E: Write>(errors: &mut E, number: u32) -> io::Result<()> {
    write!(errors, "refused {number}: ")?;
    tell_refusal_row(errors, number)?;
    writeln!(errors)
}

/// Why a file cannot be read, by the kind of the error.
fn unread_by(kind: ErrorKind) -> &'static str {
    match kind {
        ErrorKind::NotFound | ErrorKind::NotADirectory => "there is no such file",
        ErrorKind::PermissionDenied => "you may not read it; ls -l shows who may",
        _ => "it cannot be read: its disk or its device fails",
    }
}

/// Why the file at a path cannot be read, if that can be told.
pub(crate) fn unread(rt: &HostRuntime, path: &str) -> Option<&'static str> {
    match fs::metadata(rt, path) {
        Ok(found) if found.is_dir() => return Some("this is a folder; name a file"),
        Ok(found) if found.is_file() => {}
        // A pipe or a device would be waited for.
        Ok(_) => return None,
        Err(error) => return Some(unread_by(error.kind())),
    }
    match File::open(rt, path) {
        Ok(_) => None,
        Err(error) => Some(unread_by(error.kind())),
    }
}

/// Whether the folder of a path is there.
fn has_folder(rt: &HostRuntime, path: &str) -> bool {
    match path.rsplit_once('/') {
        None | Some(("", _)) => true,
        Some((folder, _)) => fs::metadata(rt, folder).is_ok(),
    }
}

/// Why a file cannot be written at a path.
pub(crate) fn unwritten(rt: &HostRuntime, path: &str) -> &'static str {
    match fs::metadata(rt, path) {
        Ok(found) if found.is_dir() => "this is a folder; name a file",
        Err(_) if !has_folder(rt, path) => "its folder is not there; make it with mkdir -p",
        _ => UNWRITTEN,
    }
}

/// Prints that the output failed.
pub(crate) fn tell_output<E: Write>(errors: &mut E) -> io::Result<()> {
    writeln!(errors, "bureau: {OUTPUT}")
}

/// The fault of a bureau's file that was printed by its number. Its version is looked for.
fn fault_at(rt: &HostRuntime, file: &str, number: u32) -> OpenFault {
    match number {
        1 => OpenFault::NoMemory,
        50 => OpenFault::NotABureau,
        51 => find_fault(rt, file).unwrap_or(OpenFault::Store),
        _ => OpenFault::Store,
    }
}

/// Explains why a bureau's file could not be used, or the output could not be written.
pub(crate) fn explain_file<E: Write>(
    rt: &HostRuntime,
    file: &str,
    told: Told,
    errors: &mut E,
) -> io::Result<()> {
    match told {
        Told::Fault(number) => {
            let hindrance = find_hindrance(rt, file, fault_at(rt, file, number));
            writeln!(errors, "{file}: {hindrance}")
        }
        Told::Device => tell_output(errors),
        _ => Ok(()),
    }
}

/// Whether there is something at a path with more letters at its end.
fn is_at(rt: &HostRuntime, path: &str, end: &str) -> bool {
    match format!(in rt.alloc(); "{path}{end}") {
        Ok(name) => fs::symlink_metadata(rt, name.as_str()).is_ok(),
        Err(_) => false,
    }
}

/// Prints why a new file was not made.
fn tell_unmade<E: Write>(rt: &HostRuntime, file: &str, errors: &mut E) -> io::Result<()> {
    for end in ["-wal", "-journal"] {
        if is_at(rt, file, end) {
            return writeln!(
                errors,
                "{file}{end}: this would be taken for the new file's; move it elsewhere"
            );
        }
    }
    if !has_folder(rt, file) {
        return writeln!(
            errors,
            "{file}: its folder is not there; make it with mkdir -p"
        );
    }
    writeln!(
        errors,
        "{file}: it could not be made: you may not write there, the disk is full, or knows no \
         hard links, as exFAT, FAT and many shares; take another folder"
    )
}

/// Explains why a new bureau's file was not made.
pub(crate) fn explain_init<E: Write>(
    rt: &HostRuntime,
    file: &str,
    told: Told,
    errors: &mut E,
) -> io::Result<()> {
    match told {
        Told::Fault(2) if is_at(rt, file, "") => writeln!(
            errors,
            "{file}: there is something of this name, and init replaces nothing; take another name"
        ),
        Told::Fault(2) => tell_unmade(rt, file, errors),
        _ => explain_file(rt, file, told, errors),
    }
}

/// Explains why the files of a job were not written.
pub(crate) fn explain_export<E: Write>(
    rt: &HostRuntime,
    file: &str,
    told: Told,
    errors: &mut E,
) -> io::Result<()> {
    match told {
        Told::Refused(number) => tell_refusal(errors, number),
        Told::Device => writeln!(errors, "a file of this folder: {UNWRITTEN}"),
        _ => explain_file(rt, file, told, errors),
    }
}

/// Prints why a port could not be bound, by trying it once more.
fn tell_port<E: Write>(rt: &HostRuntime, port: u16, errors: &mut E) -> io::Result<()> {
    let address = SocketAddrV4::new(Ipv4Addr::LOCALHOST, port);
    let why = match TcpListener::bind(rt, address) {
        Ok(_) => "another program had it; try again",
        Err(error) => match error.kind() {
            ErrorKind::AddrInUse => "another program has it; ss -ltnp shows which",
            ErrorKind::PermissionDenied => "you may not have it; take one above 1023",
            _ => "it cannot be had on 127.0.0.1; take another one",
        },
    };
    writeln!(errors, "port {port}: {why}")
}

/// Explains why requests were not served.
pub(crate) fn explain_service<E: Write>(
    rt: &HostRuntime,
    file: &str,
    port: u16,
    told: Told,
    errors: &mut E,
) -> io::Result<()> {
    match told {
        Told::Device => tell_port(rt, port, errors),
        _ => explain_file(rt, file, told, errors),
    }
}
