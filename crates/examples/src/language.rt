//! The page on the language: each of its blocks that is said to give the next one.

use crate::output_of;
use std::alloc::{AllocError, Global};

/// What was read of the page so far.
#[derive(Drop)]
struct Page {
    /// The last block that is closed.
    script: String,
    /// The block that is read.
    block: String,
    /// Whether the block is said to be what the script gives.
    is_output: bool,
    /// How many blocks gave the next one as they should.
    right: u32,
    /// How many blocks should give the next one and did not.
    wrong: u32,
}

/// Adds a line to the block. A block is indented by four blanks, and may have empty lines in it.
fn add_line(block: &mut String, line: &str) -> Result<(), AllocError> {
    block.push_str(line)?;
    block.push_str("\n")
}

/// The block with one line's end behind its last line.
fn closed(alloc: Global, block: &str) -> Result<String, AllocError> {
    format!(in alloc; "{}\n", block.trim_end_matches('\n'))
}

/// Whether the script gives the output.
fn gives(alloc: Global, script: &str, output: &str) -> Result<bool, AllocError> {
    let given = output_of(alloc, script.as_bytes().to_vec(alloc)?)?;
    Ok(given.as_slice() == output.as_bytes())
}

impl Page {
    /// Closes the block, if one is open, and runs the script where the block is its output.
    fn close(&mut self, alloc: Global) -> Result<(), AllocError> {
        if self.block.is_empty() {
            return Ok(());
        }
        let block = closed(alloc, self.block.as_str())?;
        if self.is_output {
            match gives(alloc, self.script.as_str(), block.as_str())? {
                true => self.right = self.right.saturating_add(1),
                false => self.wrong = self.wrong.saturating_add(1),
            }
        }
        self.script = block;
        self.block.clear();
        Ok(())
    }

    /// Reads one more line of the page.
    fn read(&mut self, alloc: Global, line: &str) -> Result<(), AllocError> {
        if let Some(written) = line.strip_prefix("    ") {
            return add_line(&mut self.block, written);
        }
        if line.is_empty() {
            if self.block.is_empty() {
                return Ok(());
            }
            return add_line(&mut self.block, line);
        }
        self.close(alloc)?;
        self.is_output = line == "gives" || line == "The output is";
        Ok(())
    }
}

/// How many blocks of the page give the next one as it says, and how many do not.
pub(crate) fn count_blocks(alloc: Global, page: &str) -> Result<(u32, u32), AllocError> {
    let mut read = Page {
        script: String::new(alloc),
        block: String::new(alloc),
        is_output: false,
        right: 0,
        wrong: 0,
    };
    for line in page.lines() {
        read.read(alloc, line)?;
    }
    read.close(alloc)?;
    Ok((read.right, read.wrong))
}
