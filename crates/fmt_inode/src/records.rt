use sfs_base::RoomyList;

/// The records of all inodes, ascending by inode, 512 raw bytes for each. Contracts see the list of
/// their lists of bytes, and the number `spare` of pushes that are reserved.
pub type Records = RoomyList<[u8; 512]>;
