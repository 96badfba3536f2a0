// The files of a folder.
use crate::report::MOST_BYTES;
use anyhow::anyhow;
use std::fs::File;
use std::io::{ErrorKind, Read};
use std::path::Path;
use std::{env, io};

// The folder that the one argument names; without one, the current directory.
pub(crate) fn folder_named(rt: &HostRuntime) -> anyhow::Result<String> {
    let mut args = env::args(rt)?;
    let _program = args.next();
    let folder = args.next();
    if args.next().is_some() {
        return Err(anyhow!("usage: checker [FOLDER]"));
    }
    match folder {
        Some(name) => Ok(name),
        None => Ok(String::from_str(rt.alloc(), ".")?),
    }
}

// The bytes of a file, or the first MOST_BYTES + 1 where there are more.
fn first_bytes(rt: &HostRuntime, path: Path<'_>) -> io::Result<Vec<u8>> {
    let mut bytes = Vec::new(rt.alloc());
    let file = File::open(rt, path)?;
    file.take(MOST_BYTES as u64 + 1).read_to_end(&mut bytes)?;
    Ok(bytes)
}

// The same of a file of the folder, which is empty where it is missing.
pub(crate) fn read_file(rt: &HostRuntime, folder: Path<'_>, name: &str) -> anyhow::Result<Vec<u8>> {
    let path = folder.join(rt.alloc(), name)?;
    match first_bytes(rt, path.as_path()) {
        Ok(bytes) => Ok(bytes),
        Err(e) if e.kind() == ErrorKind::NotFound => Ok(Vec::new(rt.alloc())),
        Err(e) => Err(anyhow!(format!(in rt.alloc(); "cannot read {name}: {e}")?)),
    }
}
