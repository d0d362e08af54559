//! A picture that is written from its start to its end.
ghost use Rattle.std.specs.Prelude.{◌≡◌, [], ◌++◌, OnOk, OnErr, IfOk};
ghost use Rattle.flurry_run_draw.specs.ReaderState.{reader_after, between_tags, Shows};

use std::alloc::{AllocError, Global};
use std::marker::Model;

/// The bytes of a picture so far. Contracts view it as the text that it shows to a reader who leaves out its tags.
#[derive(Drop)]
pub struct Page {
    bytes: Vec<u8>,
}

impl Model for Page {
    ghost use Rattle.std.specs.Prelude.{◌≡◌, ℕ, List};
    ghost use Rattle.flurry_run_draw.specs.ReaderState.{reader_after, Text};

    ghost Value = { List ℕ };

    ghost view = { λ p. (reader_after p.bytes.items).shown };

    ghost invariant = { λ p. (reader_after p.bytes.items).place ≡ Text };
}

impl Page {
    /// Creates an empty page.
    pub fn new(alloc: Global) -> Self
        ensures { result ≡ [] }
    {
        Page {
            bytes: Vec::new(alloc),
        }
    }

    /// Appends a tag with the text `inner`, without any `>` in it.
    ///
    /// # Errors
    ///
    /// Returns [`AllocError`] if memory for the tag cannot be allocated. The shown text is unchanged.
    pub fn tag(&mut self, inner: &str) -> Result<(), AllocError>
        ensures { self.new ≡ self.old }
    {
        let tag = tag_of(*self.bytes.allocator(), inner.as_bytes())?;
        self.bytes.extend_from_slice(&tag)
    }

    /// Appends `text`, which a reader sees.
    ///
    /// # Errors
    ///
    /// Returns [`AllocError`] if memory for the text cannot be allocated. The shown text is unchanged.
    pub fn text(&mut self, text: &[u8]) -> Result<(), AllocError>
        ensures ok { OnOk result (self.new ≡ self.old ++ text.now) }
        ensures err { OnErr result (self.new ≡ self.old) }
    {
        let text = escaped(*self.bytes.allocator(), text)?;
        self.bytes.extend_from_slice(&text)
    }

    /// Returns the bytes of the picture.
    pub fn into_bytes(self) -> Vec<u8>
        ensures { reader_after result.items ≡ between_tags self }
    {
        let Page { bytes } = self;
        bytes
    }
}

// Returns the bytes of a tag, which shows nothing.
fn tag_of(alloc: Global, inner: &[u8]) -> Result<Vec<u8>, AllocError>
    ensures { IfOk result (λ tag. Shows tag.items []) }
{
    let mut tag = Vec::new(alloc);
    tag.push(b'<')?;
    for byte in inner {
        if *byte != b'>' {
            tag.push(*byte)?;
        }
    }
    tag.push(b'>')?;
    Ok(tag)
}

// Returns the bytes of a text, with entities in place of the bytes that start a tag or an entity.
fn escaped(alloc: Global, text: &[u8]) -> Result<Vec<u8>, AllocError>
    ensures { IfOk result (λ bytes. Shows bytes.items text.now) }
{
    let mut bytes = Vec::new(alloc);
    for byte in text {
        match *byte {
            b'<' => bytes.extend_from_slice(b"&lt;")?,
            b'&' => bytes.extend_from_slice(b"&amp;")?,
            other => bytes.push(other)?,
        }
    }
    Ok(bytes)
}
