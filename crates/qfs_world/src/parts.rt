//! What a world is made of, as it is handed back.
use qfs_base::command::ReplyList;
use qfs_base::image::MetaImage;
use qfs_base::order::Order;
use qfs_device::MetaDisks;

/// A world that couldn't be made for want of memory: the devices and disks as they came.
#[derive(Drop)]
pub struct WorldLoadError<D, L> {
    pub devices: Vec<D>,
    pub disks: MetaDisks<L>,
}

/// A world taken apart.
pub struct Parts<D, L> {
    /// All devices, in the places in which they came: that of server s at s - 1.
    pub devices: Vec<D>,
    pub disks: MetaDisks<L>,
    /// The metaserver's state.
    pub image: MetaImage,
    /// The entries of the steps that were taken.
    pub order: Order,
    /// The replies of the commands that have ended, by actor and command.
    pub replies: ReplyList,
}

/// A world that couldn't be taken apart for want of memory: its devices and disks, as in `Parts`.
#[derive(Drop)]
pub struct PartsError<D, L> {
    pub devices: Vec<D>,
    pub disks: MetaDisks<L>,
}
