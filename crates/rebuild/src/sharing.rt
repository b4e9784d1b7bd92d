//! What is had once more in the same memory, and compared with another.

ghost use Rattle.std.specs.Prelude.{◌≡◌, IfOk, true};
ghost use Rattle.rebuild.specs.Taking.{same_content};

use base::{Seq, Text};
use load_path::{Content, PictureFile};
use path_tree::Name;
use std::alloc::{AllocError, Global};

/// What can be had once more in the same memory, and compared with another.
pub trait Share {
    /// The same.
    fn shared(&self) -> Result<Self, AllocError>
        ensures { IfOk result (λ same. same ≡ self.now) };

    /// Whether the other is the same.
    fn is_same(&self, other: &Self) -> bool
        ensures { result ≡ true → self.now ≡ other.now };
}

impl Share for Text {
    fn shared(&self) -> Result<Text, AllocError> {
        self.share()
    }

    fn is_same(&self, other: &Text) -> bool {
        self.as_str() == other.as_str()
    }
}

impl Share for Name {
    fn shared(&self) -> Result<Name, AllocError> {
        self.share()
    }

    fn is_same(&self, other: &Name) -> bool {
        self.as_str() == other.as_str()
    }
}

/// Whether two contents are the same.
pub(crate) fn same_content(a: &Content, b: &Content) -> bool
    ensures { result ≡ same_content a.now b.now }
{
    match (a, b) {
        (Content::Bytes(a), Content::Bytes(b)) => a.as_slice() == b.as_slice(),
        (Content::TooLong, Content::TooLong) => true,
        _ => false,
    }
}

impl Share for Content {
    fn shared(&self) -> Result<Content, AllocError> {
        match self {
            Content::Bytes(bytes) => Ok(Content::Bytes(bytes.share()?)),
            Content::TooLong => Ok(Content::TooLong),
        }
    }

    fn is_same(&self, other: &Content) -> bool {
        same_content(self, other)
    }
}

impl Share for PictureFile {
    fn shared(&self) -> Result<PictureFile, AllocError> {
        Ok(PictureFile {
            name: self.name.share()?,
            content: self.content.shared()?,
        })
    }

    fn is_same(&self, other: &PictureFile) -> bool {
        self.name.as_str() == other.name.as_str() && self.content.is_same(&other.content)
    }
}

/// The same items.
pub fn share_all<T: Share + Drop>(alloc: Global, items: &[T]) -> Result<Vec<T>, AllocError>
    ensures { IfOk result (λ same. same.items ≡ items.now) }
{
    let mut same = Vec::with_capacity(alloc, items.len())?;
    for item in items {
        same.push(item.shared()?)?;
    }
    Ok(same)
}

/// The same texts.
pub fn shared_texts(alloc: Global, texts: &[Text]) -> Result<Seq<Text>, AllocError>
    ensures { IfOk result (λ same. same ≡ texts.now) }
{
    Ok(Seq::from_vec(share_all(alloc, texts)?))
}

/// Whether the others are the same, in the same order.
pub(crate) fn are_same<T: Share>(items: &[T], others: &[T]) -> bool
    ensures { result ≡ true → items.now ≡ others.now }
{
    if items.len() != others.len() {
        return false;
    }
    for i in 0..items.len() {
        if !items[i].is_same(&others[i]) {
            return false;
        }
    }
    true
}
