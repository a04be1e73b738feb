// Outcomes told in words.
use faults::Fault;
use std::alloc::{AllocError, Global};
use std::io;

// A call that is expected to be refused: the refusal, or that it was accepted after all.
pub fn tell<T: Drop>(rt: &impl Print, call: &str, answer: Result<T, Fault>) -> io::Result<()> {
    match answer {
        Ok(_) => println!(rt; "  {call}: accepted"),
        Err(fault) => println!(rt; "  {call}: {fault}"),
    }
}

// The bytes as text, up to the first that no text has here: a zero fills a name field or a block up.
pub fn text_of(alloc: Global, bytes: &[u8]) -> Result<String, AllocError> {
    bytes
        .iter()
        .take_while(|byte| **byte != 0 && byte.is_ascii())
        .map(|byte| char::from(*byte))
        .collect(alloc)
}
