//! Documents that rounds fetch: the files of the folder `documents`, each at the location that is its name, and one at
//! `long.nt` that is too long, for the scripts that name it.
ghost use Rattle.std.specs.Prelude.{◌≡◌, IfOk, length};

use cases::invalid;
use portal_base::memory::{MemoryFetcher, are_distinct};
use portal_base::seq::Seq;
use portal_base::text::Text;
use std::alloc::{AllocError, Global};
use std::{fs, io, str};

const FOLDER: &str = "documents";

/// The location of the document that is too long.
const LONG: &str = "long.nt";

/// How many bytes it has: one more than the longest document that is read.
const LONG_LENGTH: usize = 67_108_865;

/// A location, and the bytes there.
type Document = (Text, Seq<u8>);

/// The document of that file.
fn document_of(rt: &HostRuntime, file: &str) -> io::Result<Document> {
    let path = format!(in rt.alloc(); "{FOLDER}/{file}")?;
    let bytes = fs::read(rt, path)?;
    Ok((Text::from_str(rt.alloc(), file)?, Seq::from(bytes)))
}

/// The documents of the folder.
fn documents(rt: &HostRuntime) -> io::Result<Vec<Document>> {
    let mut documents = Vec::new(rt.alloc());
    for entry in fs::read_dir(rt, FOLDER)? {
        let entry = entry?;
        documents.push(document_of(rt, entry.file_name())?)?;
    }
    Ok(documents)
}

/// The document that is too long: lines without a triple.
fn long_document(alloc: Global) -> Result<Document, AllocError> {
    let bytes = vec![in alloc; b'\n'; LONG_LENGTH]?;
    Ok((Text::from_static(LONG), Seq::from(bytes)))
}

/// Whether the script has the location of the document that is too long.
fn names_long_document(script: &[u8]) -> bool {
    match str::from_utf8(script) {
        Ok(text) => text.find(LONG).is_some(),
        Err(_) => false,
    }
}

/// A fetcher of the documents of the script, which fails at the fetches with these numbers, the first one 1.
pub fn fetcher_for(
    rt: &HostRuntime,
    script: &[u8],
    failing: Vec<u64>,
) -> io::Result<MemoryFetcher> {
    let mut held = documents(rt)?;
    if names_long_document(script) {
        held.push(long_document(rt.alloc())?)?;
    }
    if !are_distinct(held.as_slice()) {
        return Err(invalid());
    }
    Ok(MemoryFetcher::new(Seq::from(held), Seq::from(failing)))
}

/// A fetcher without any document.
pub fn no_documents(alloc: Global) -> MemoryFetcher {
    MemoryFetcher::new(Seq::new(alloc), Seq::new(alloc))
}

/// A list of the fetcher alone.
pub fn alone(alloc: Global, fetcher: MemoryFetcher) -> Result<Vec<MemoryFetcher>, AllocError>
    ensures { IfOk result (λ fetchers. length fetchers.items ≡ 1) }
{
    Ok(Vec::from_array(alloc, [fetcher])?)
}
