//! What a client sends: its bytes, and where more of them has to be waited for.
use bsp_edge::MemSource;
use std::alloc::Global;
use std::test::Fail;

/// More polls than there are outcomes in a test.
const ALL: u32 = 1_000_000;

/// What a client sends.
pub struct Sent {
    pub bytes: Vec<u8>,
    /// Where pieces end.
    pub cuts: Vec<u64>,
    /// Where pieces end, each with the number of polls that find nothing there.
    pub quiet: Vec<(u64, u32)>,
}

impl Drop for Sent {
    fn drop(self) {
        let Self {
            bytes: _,
            cuts: _,
            quiet: _,
        } = self;
    }
}

impl Sent {
    /// Nothing is sent yet.
    pub fn new(alloc: Global) -> Sent {
        Sent::whole(alloc, Vec::new(alloc))
    }

    /// These bytes, in one piece.
    pub fn whole(alloc: Global, bytes: Vec<u8>) -> Sent {
        Sent {
            bytes,
            cuts: Vec::new(alloc),
            quiet: Vec::new(alloc),
        }
    }

    /// These bytes come next.
    pub fn add(&mut self, bytes: &[u8]) -> Result<(), Fail> {
        Ok(self.bytes.extend_from_slice(bytes)?)
    }

    /// The frame of this body comes next.
    pub fn add_body(&mut self, alloc: Global, body: &[u8]) -> Result<(), Fail> {
        add_frame(alloc, body, &mut self.bytes)
    }

    /// What follows comes in another piece, which is there at once.
    pub fn cut(&mut self) -> Result<(), Fail> {
        Ok(self.cuts.push(self.bytes.len() as u64)?)
    }

    /// What follows comes behind so many outcomes, or when all is answered.
    pub fn wait(&mut self, outcomes: u32) -> Result<(), Fail> {
        Ok(self.quiet.push((self.bytes.len() as u64, outcomes))?)
    }

    /// What follows comes when all is answered.
    pub fn wait_for_all(&mut self) -> Result<(), Fail> {
        self.wait(ALL)
    }

    /// The source that gives what is sent, and whose reads of these ordinals fail.
    pub fn into_source(self, failing: Vec<u64>) -> MemSource {
        let Sent { bytes, cuts, quiet } = self;
        MemSource::new(bytes, cuts, quiet, failing)
    }
}

/// Puts the frame of a body behind other bytes.
pub fn add_frame(alloc: Global, body: &[u8], bytes: &mut Vec<u8>) -> Result<(), Fail> {
    let head = format!(in alloc; "Content-Length: {}\r\n\r\n", body.len())?;
    bytes.extend_from_slice(head.as_bytes())?;
    bytes.extend_from_slice(body)?;
    Ok(())
}

/// Bytes in parts.
pub type Parts<'a> = &'a [&'a [u8]];

/// The bytes of these parts.
pub fn joined(alloc: Global, parts: Parts) -> Result<Vec<u8>, Fail> {
    let mut bytes = Vec::new(alloc);
    for part in parts {
        bytes.extend_from_slice(part)?;
    }
    Ok(bytes)
}

/// The frames of these bodies.
pub fn framed(alloc: Global, bodies: &[&[u8]]) -> Result<Vec<u8>, Fail> {
    let mut bytes = Vec::new(alloc);
    for body in bodies {
        add_frame(alloc, body, &mut bytes)?;
    }
    Ok(bytes)
}
