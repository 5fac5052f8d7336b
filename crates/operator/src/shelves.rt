//! A shelf: the folders of archived jobs, `CUSTOMER/NUMBER`.

use crate::job_folders::is_folder;
use std::alloc::AllocError;
use std::io::ErrorKind;
use std::{fs, io};
use texts::{is_customer, is_number, number_of};

/// The name of the text in a shelf that says how it is read.
const README: &str = "README.txt";

/// A job's folder in a shelf.
#[derive(Drop)]
pub(crate) struct Shelved {
    /// The customer, which is the name of the folder above it.
    pub customer: String,
    /// The number, which is its own name.
    pub number: u32,
}

/// What a shelf has.
#[derive(Drop)]
pub(crate) struct Shelf {
    /// The jobs' folders, sorted by customers and numbers.
    pub jobs: Vec<Shelved>,
    /// The paths of what else is there.
    pub others: Vec<String>,
}

/// The names in a folder, sorted. A name that is no text is told as one.
fn names_in(rt: &HostRuntime, path: &str) -> io::Result<Vec<String>> {
    let mut names = Vec::new(rt.alloc());
    for entry in fs::read_dir(rt, path)? {
        match entry {
            Ok(entry) => names.push(String::from_str(rt.alloc(), entry.file_name())?)?,
            Err(error) if error.kind() == ErrorKind::InvalidFilename => {
                names.push(String::from_str(rt.alloc(), "a name that is no text")?)?
            }
            Err(error) => return Err(error),
        }
    }
    names.sort()?;
    Ok(names)
}

/// The number of a job whose folder has this name.
fn job_number(name: &str) -> Option<u32> {
    let number = number_of(name)?;
    if is_number(number) {
        Some(number)
    } else {
        None
    }
}

impl Shelf {
    /// Adds the path of what is no job's folder.
    fn push_other(&mut self, rt: &HostRuntime, folder: &str, name: &str) -> Result<(), AllocError> {
        let path = format!(in rt.alloc(); "{folder}/{name}")?;
        self.others.push(path)?;
        Ok(())
    }

    /// Adds the jobs' folders in the folder of a customer, the smallest number first.
    fn push_jobs(&mut self, rt: &HostRuntime, path: &str, customer: &str) -> io::Result<()> {
        let mut numbers = Vec::new(rt.alloc());
        for name in &names_in(rt, path)? {
            let name = name.as_str();
            let at = format!(in rt.alloc(); "{path}/{name}")?;
            match job_number(name) {
                Some(number) if is_folder(rt, &at)? => numbers.push(number)?,
                _ => self.push_other(rt, path, name)?,
            }
        }
        numbers.sort()?;
        for number in &numbers {
            let customer = String::from_str(rt.alloc(), customer)?;
            self.jobs.push(Shelved {
                customer,
                number: *number,
            })?;
        }
        Ok(())
    }
}

/// What is in the shelf at a path.
pub(crate) fn shelf_at(rt: &HostRuntime, folder: &str) -> io::Result<Shelf> {
    let mut shelf = Shelf {
        jobs: Vec::new(rt.alloc()),
        others: Vec::new(rt.alloc()),
    };
    for name in &names_in(rt, folder)? {
        let name = name.as_str();
        let path = format!(in rt.alloc(); "{folder}/{name}")?;
        if is_customer(name) && is_folder(rt, &path)? {
            shelf.push_jobs(rt, &path, name)?;
        } else if name != README {
            shelf.push_other(rt, folder, name)?;
        }
    }
    Ok(shelf)
}
