//! A volume's header.

ghost use Rattle.std.specs.Prelude.{◌≡◌, ◌↔◌, IsTrue};
ghost use Rattle.vnode_model.specs.Headers.{IsMessage, IsVolHeader};

use crate::limits::MOST_MESSAGE;
use bk_text::{Bytes, Name};
use std::alloc::AllocError;
use std::marker::Model;

/// The fields of a volume's header, in the order in which a dump stream has them. Times are seconds since 1970.
#[derive(Debug, Drop)]
pub struct HeaderFields {
    pub id: u32,
    pub stamp: u32,
    pub name: Name,
    pub in_service: u8,
    pub blessed: u8,
    pub uniq: u32,
    /// 0 read/write, 1 read-only, 2 backup.
    pub kind: u8,
    pub parent: u32,
    pub clone_id: u32,
    pub max_quota: u32,
    pub min_quota: u32,
    pub disk_used: u32,
    pub file_count: u32,
    pub account: u32,
    pub owner: u32,
    pub created: u32,
    pub accessed: u32,
    pub updated: u32,
    pub expires: u32,
    pub backed_up: u32,
    /// Why the volume is offline.
    pub offline: Bytes,
    /// The message of the day.
    pub message: Bytes,
    pub week: [u32; 7],
    pub day_date: u32,
    pub day_use: u32,
    /// The volume update counter, where the header has one.
    pub updates: Option<u32>,
}

/// A volume's header: its type is at most 2, and each message has at most 1,024 bytes, none of them 0.
#[derive(Debug, Drop)]
pub struct VolHeader {
    fields: HeaderFields,
}

impl Model for VolHeader {
    ghost use Rattle.vnode_model.specs.declared.headers.HeaderFields.{HeaderFields};
    ghost use Rattle.vnode_model.specs.Headers.{IsVolHeader};

    ghost Value = { HeaderFields };

    ghost view = { λ a. a.fields };

    ghost invariant = { λ a. IsVolHeader a.fields };
}

impl Clone for HeaderFields {
    ghost is_clone = { λ a b. b ≡ a };

    fn clone(&self) -> Result<HeaderFields, AllocError> {
        Ok(HeaderFields {
            name: self.name.clone()?,
            offline: self.offline.copy()?,
            message: self.message.copy()?,
            ..*self
        })
    }
}

impl Clone for VolHeader {
    ghost is_clone = { λ a b. b ≡ a };

    fn clone(&self) -> Result<VolHeader, AllocError> {
        Ok(VolHeader {
            fields: self.fields.clone()?,
        })
    }
}

/// Whether this is an offline message or a message of the day: at most 1,024 bytes, none of them 0.
pub fn is_message(text: &[u8]) -> bool
    ensures { IsTrue result ↔ IsMessage text.now }
{
    text.len() <= MOST_MESSAGE && text.iter().all(|byte| *byte != 0)
}

impl VolHeader {
    /// Whether these are the fields of a header.
    pub fn is_header(fields: &HeaderFields) -> bool
        ensures { IsTrue result ↔ IsVolHeader fields.now }
    {
        fields.kind <= 2
            && is_message(fields.offline.as_slice())
            && is_message(fields.message.as_slice())
    }

    /// The header of these fields. `is_header` tests them.
    pub fn new(fields: HeaderFields) -> Self
        requires { IsVolHeader fields }
        ensures { result ≡ fields }
    {
        VolHeader { fields }
    }

    /// Its fields.
    pub fn fields(&self) -> &HeaderFields
        ensures value { result.now ≡ self.now }
        ensures form { IsVolHeader self.now }
    {
        &self.fields
    }

    /// Its fields, for whoever changes them.
    pub fn into_fields(self) -> HeaderFields
        ensures value { result ≡ self }
        ensures form { IsVolHeader self }
    {
        let VolHeader { fields } = self;
        fields
    }
}
