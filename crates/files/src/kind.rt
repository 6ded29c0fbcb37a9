// Which kind of file a name stands for, found without opening it.

use std::fs;
use std::os::unix::fs::FileTypeExt;
use std::rt::Files;

// Whether the file, or what a link of that name leads to, is a named pipe. What the system tells nothing of is none.
pub(crate) fn is_pipe(files: &impl Files, path: &str) -> bool {
    match fs::metadata(files, path) {
        Ok(known) => known.file_type().is_fifo(),
        Err(_) => false,
    }
}
