//! Volumes.

ghost use Rattle.std.specs.Prelude.{◌≡◌, [], IfOk, OnOk, IfErr};
ghost use Rattle.vnode_model.specs.Limits.{AreVolume};
ghost use Rattle.vnode_model.specs.Volumes.{IsOrderFault, latest_of};

use crate::fitting::fault_in_vnodes;
use crate::headers::VolHeader;
use crate::vnodes::Vnode;
use bk_text::List;
use std::alloc::AllocError;
use std::marker::Model;
use thiserror::Error;

/// The fields of a volume.
#[derive(Debug, Drop)]
pub struct VolumeFields {
    pub header: VolHeader,
    pub vnodes: List<Vnode>,
}

/// A volume: its header and its vnodes, in the order, of the parity and within the limits. It may have no vnodes.
#[derive(Debug)]
pub struct Volume {
    fields: VolumeFields,
}

/// It is written out, so that each function that lets one go calls it.
impl Drop for Volume {
    fn drop(self) {
        let Volume { fields } = self;
    }
}

/// Why a header and vnodes are no volume.
#[derive(Clone, Copy, Debug, PartialEq, Eq, Drop, Error)]
pub enum VolumeFault {
    /// The vnode at this index is the first that breaks the order, the parity or a limit.
    #[error("vnode {index} breaks the order, the parity or a limit")]
    Order { index: usize },
}

impl Model for Volume {
    ghost use Rattle.vnode_model.specs.declared.volumes.VolumeFields.{VolumeFields};
    ghost use Rattle.vnode_model.specs.Limits.{AreVolume};

    ghost Value = { VolumeFields };

    ghost view = { λ a. a.fields };

    ghost invariant = { λ a. AreVolume a.fields.vnodes };
}

impl Clone for Volume {
    ghost is_clone = { λ a b. b ≡ a };

    fn clone(&self) -> Result<Volume, AllocError> {
        Ok(Volume {
            fields: VolumeFields {
                header: self.fields.header.clone()?,
                vnodes: self.fields.vnodes.clone()?,
            },
        })
    }
}

impl Volume {
    /// The volume of this header and these vnodes. Where they are refused both are dropped. It takes no memory.
    pub fn new(header: VolHeader, vnodes: List<Vnode>) -> Result<Self, VolumeFault>
        ensures value { IfOk result (λ volume. volume ≡ record { header = header; vnodes = vnodes }) }
        ensures form { OnOk result (AreVolume vnodes) }
        ensures fault { IfErr result (IsOrderFault vnodes) }
    {
        match fault_in_vnodes(vnodes.as_slice()) {
            Some(index) => Err(VolumeFault::Order { index }),
            None => Ok(Volume {
                fields: VolumeFields { header, vnodes },
            }),
        }
    }

    /// The volume of these fields. `new` tests them.
    pub fn from_fields(fields: VolumeFields) -> Self
        requires { AreVolume fields.vnodes }
        ensures { result ≡ fields }
    {
        Volume { fields }
    }

    /// Its header.
    pub fn header(&self) -> &VolHeader
        ensures { result.now ≡ self.now.header }
    {
        &self.fields.header
    }

    /// Its vnodes in order.
    pub fn vnodes(&self) -> &[Vnode]
        ensures value { result.now ≡ self.now.vnodes }
        ensures form { AreVolume self.now.vnodes }
    {
        self.fields.vnodes.as_slice()
    }

    /// Lets go of the vnodes. It takes no memory.
    pub fn clear(&mut self)
        ensures { self.new ≡ record self.old { vnodes = [] } }
    {
        self.fields.vnodes.clear();
    }

    /// Its fields, for whoever changes them. It takes no memory.
    pub fn into_fields(self) -> VolumeFields
        ensures value { result ≡ self }
        ensures form { AreVolume self.vnodes }
    {
        let Volume { fields } = self;
        fields
    }

    /// The greatest of the creation date and the times at which the server last changed its vnodes, in seconds since
    /// 1970.
    pub fn latest(&self) -> u32
        ensures { result ≡ latest_of self.now }
    {
        let mut latest = self.fields.header.fields().created;
        for vnode in self.fields.vnodes.as_slice() {
            latest = latest.max(vnode.server_modified);
        }
        latest
    }
}
