use sc_dev::Part;
use std::fs::{File, OpenOptions};
use std::io;
use std::io::ErrorKind;

/// What is known of the file of a part.
#[derive(Drop)]
enum Found {
    /// Nothing: it was not looked for.
    Unseen,
    Missing,
    /// It may only be read. The error is what a write meets.
    ReadOnly(File, io::Error),
    Open(File),
}

/// The files of the parts, each looked for at its first use. A file that was found is locked, before it is read, until
/// the program ends: another program that works on it meets a fault.
#[derive(Drop)]
pub(crate) struct Parts {
    journal: Found,
    slot_a: Found,
    slot_b: Found,
}

impl Parts {
    pub(crate) fn new() -> Parts {
        Parts {
            journal: Found::Unseen,
            slot_a: Found::Unseen,
            slot_b: Found::Unseen,
        }
    }

    /// Whether the part was looked for, and there is no file of it.
    pub(crate) fn is_missing(&self, part: Part) -> bool {
        matches!(self.of(part), Found::Missing)
    }

    /// The file of a part to read, where there is one.
    #[inline(always)]
    pub(crate) fn to_read(&mut self, rt: &HostRuntime, part: Part) -> io::Result<Option<&File>> {
        let found = self.looked_for(rt, part)?;
        match found {
            Found::ReadOnly(file, _) | Found::Open(file) => Ok(Some(file)),
            _ => Ok(None),
        }
    }

    /// The file of a part to write. It is made where there is none.
    #[inline(always)]
    pub(crate) fn to_write(&mut self, rt: &HostRuntime, part: Part) -> io::Result<&File> {
        let found = self.looked_for(rt, part)?;
        if matches!(found, Found::Missing) {
            *found = Found::Open(made(rt, name_of(part))?);
        }
        match found {
            Found::Open(file) => Ok(file),
            Found::ReadOnly(_, error) => Err(*error),
            _ => Err(ErrorKind::NotFound.into()),
        }
    }

    fn looked_for(&mut self, rt: &HostRuntime, part: Part) -> io::Result<&mut Found> {
        let place = match part {
            Part::Journal => &mut self.journal,
            Part::SlotA => &mut self.slot_a,
            Part::SlotB => &mut self.slot_b,
        };
        if matches!(place, Found::Unseen) {
            *place = look_for(rt, name_of(part))?;
        }
        Ok(place)
    }

    fn of(&self, part: Part) -> &Found {
        match part {
            Part::Journal => &self.journal,
            Part::SlotA => &self.slot_a,
            Part::SlotB => &self.slot_b,
        }
    }
}

fn name_of(part: Part) -> &'static str {
    match part {
        Part::Journal => "scxml.journal",
        Part::SlotA => "scxml.slot-a",
        Part::SlotB => "scxml.slot-b",
    }
}

/// Opens a file that is there. The one that is found may have been made by a run that was stopped before the directory
/// was synced, so that is done here too.
#[cold]
#[inline(never)]
fn look_for(rt: &HostRuntime, name: &str) -> io::Result<Found> {
    match OpenOptions::new().read(true).write(true).open(rt, name) {
        Ok(file) => Ok(Found::Open(secured(rt, file)?)),
        Err(error) => match error.kind() {
            ErrorKind::NotFound => Ok(Found::Missing),
            ErrorKind::PermissionDenied | ErrorKind::ReadOnlyFilesystem => {
                let file = File::open(rt, name)?;
                Ok(Found::ReadOnly(secured(rt, file)?, error))
            }
            _ => Err(error),
        },
    }
}

/// Makes a file that was not there. One that another program has made since is left to that program.
#[cold]
#[inline(never)]
fn made(rt: &HostRuntime, name: &str) -> io::Result<File> {
    let file = OpenOptions::new()
        .read(true)
        .write(true)
        .create_new(true)
        .open(rt, name)?;
    secured(rt, file)
}

/// Locks a file, and syncs its directory: until then a file that was made may be gone after a stop.
fn secured(rt: &HostRuntime, file: File) -> io::Result<File> {
    file.try_lock()?;
    File::open(rt, ".")?.sync_all()?;
    Ok(file)
}
