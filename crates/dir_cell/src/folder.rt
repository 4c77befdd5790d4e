//! A folder of images, and the calls that change it.

ghost use Rattle.dir_cell.specs.Catalogs.{IsCatalog};
ghost use Rattle.dir_cell.specs.Props.{catalog_prop};

use crate::known::Known;

/// A folder's images, as the opening found them and this program left them.
#[derive(Drop)]
pub(crate) struct Folder<R: Drop> {
    pub rt: R,
    pub root: String,
    pub images: Vec<Known>,
    ghost catalog: { IsCatalog images.items } by { catalog_prop images.items },
}
