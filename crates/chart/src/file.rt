// The file that the first argument names.
use std::env::Env;
use std::io::Read;
use std::rt::Files;
use std::{fs, io, str};

// As many of the file's first bytes as the buffer holds; how many they are.
fn read_path(rt: &impl Files, path: &str, bytes: &mut [u8]) -> io::Result<usize> {
    let file = fs::open(rt, path)?;
    let room = bytes.len() as u64;
    let mut rest = bytes;
    let n = io::copy(&mut file.take(room), &mut rest)?;
    Ok(n as usize)
}

// The system's words alone: std adds the error's number to them.
fn print_failure(rt: &(impl Eprint + Alloc), what: &str, error: io::Error) -> io::Result<()> {
    let text = error.to_string(rt.alloc())?;
    let reason = text.as_str().split(" (os error ").next().unwrap_or("");
    eprintln!(rt; "{what}: {reason}")
}

// Puts the file's first bytes into the buffer and answers how many they are. None where it cannot be read: standard
// error then says why.
pub(crate) fn read_file<R: Env + Files + Eprint + Alloc>(
    rt: &R,
    bytes: &mut [u8],
) -> io::Result<Option<usize>> {
    let mut name = [0u8; 4096];
    let Ok(n) = rt.arg(1, &mut name) else {
        eprintln!(rt; "chart: File name too long")?;
        return Ok(None);
    };
    let Ok(path) = str::from_utf8(&name[..n]) else {
        eprintln!(rt; "chart: the file's name is not UTF-8")?;
        return Ok(None);
    };
    match read_path(rt, path, bytes) {
        Ok(n) => Ok(Some(n)),
        Err(error) => {
            print_failure(rt, path, error)?;
            Ok(None)
        }
    }
}
