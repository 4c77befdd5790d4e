//! Fields that were read from a block, with texts that lie in it still.

/// The fields of a label.
#[derive(Clone, Copy, Debug)]
pub struct LabelView<'a> {
    pub initial: u32,
    pub tape: u32,
    pub afs: &'a [u8],
    pub permanent: &'a [u8],
}

/// The fields of a dump's head. Cell and permanent name are empty and uses is 0 in version 1.
#[derive(Clone, Copy, Debug)]
pub struct HeadView<'a> {
    pub id: u32,
    pub initial: u32,
    pub parent: u32,
    pub expires: u32,
    pub tape: u32,
    pub part: u32,
    pub volumes: u32,
    pub set: &'a [u8],
    pub level: &'a [u8],
    pub base: &'a [u8],
    pub cell: &'a [u8],
    pub permanent: &'a [u8],
    pub uses: u32,
}

/// The fields of a volume's head.
#[derive(Clone, Copy, Debug)]
pub struct VolHeadView<'a> {
    pub dump: u32,
    pub index: u32,
    pub fragment: u32,
    pub volume: u32,
    pub clone: u32,
    pub from: u32,
    pub name: &'a [u8],
    pub server: &'a [u8],
    pub partition: &'a [u8],
}

/// The fields of a piece of data.
#[derive(Clone, Copy, Debug)]
pub struct DataView<'a> {
    pub dump: u32,
    pub index: u32,
    pub used: u32,
    pub bytes: &'a [u8],
}
