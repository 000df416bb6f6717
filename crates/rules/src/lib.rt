// The data that the product shares: the limits, the header, the records of the two tables, rectangles, refusals and the answers of the
// calls. Nothing here computes but a refusal's number; document 01's rules on these types stand in specs/.
#![tactic(auto)]

mod refusals; // refusals.rt: the number of each refusal

// The limits, each the number of specs/Limits.antt under its name.
pub const SIDE_MOST: u16 = 46340;

pub const OPTION_MOST: u16 = 46340;

pub const RECORDS_MOST: u16 = 4095;

pub const REQUEST_MOST: u32 = 65535;

pub const ITEMS_MOST: u16 = 4095;

pub const NONE: u16 = 65535;

pub const NUMBER_MOST: u16 = 65535;

pub const TABLED_MOST: u32 = 512;

pub const OFFSET_MOST: u32 = 4294967295;

pub const HELD_MOST: usize = 24;

pub const STOP_MOST: usize = 27;

// The entries of the list that the program replay has: as many rectangles may be held at once in a trace.
pub const REPLAY_HELD: usize = 65536;
// "The caller lends room for 4,095 of each": in numbers, five a shelf and seven a bucket.
pub const SHELVES_ROOM: usize = 5 * RECORDS_MOST as usize;

pub const BUCKETS_ROOM: usize = 7 * RECORDS_MOST as usize;

// The bytes of a file's records: a header, a shelf, a bucket.
pub const HEAD_BYTES: usize = 33;

pub const SHELF_BYTES: usize = 14;

pub const BUCKET_BYTES: usize = 18;

// The most bytes that a picture takes.
pub const PICTURE_MOST: usize = 72 * (2 * RECORDS_MOST as usize + 2);

// The version of the files that are written, and the only one that is read.
pub const FILE_VERSION: u16 = 1;

// The header of an atlas, in and back by value. Sides and widths are in pixels.
#[derive(Clone, Copy)]
pub struct Head {
    pub width: u16,
    pub height: u16,
    // what a request's width and height are rounded up to a multiple of
    pub align_width: u16,
    pub align_height: u16,
    // the number of columns, and how wide each is
    pub columns: u16,
    pub column_width: u16,
    // the current column, and the height left in it
    pub column: u16,
    pub room: u16,
    // how many records of each table are in use
    pub shelf_count: u16,
    pub bucket_count: u16,
    // the first released bucket; 65,535 where there is none
    pub released: u16,
    // the occupied figure, in pixels
    pub occupied: u32,
}

// A record of the shelf table: five numbers. `width` is that of each of its buckets.
#[derive(Clone, Copy)]
pub struct Shelf {
    pub x: u16,
    pub y: u16,
    pub height: u16,
    pub width: u16,
    pub first: u16,
}

// A record of the bucket table: seven numbers. `free` is the free width.
#[derive(Clone, Copy)]
pub struct Bucket {
    pub x: u16,
    pub free: u16,
    pub next: u16,
    pub refs: u16,
    pub items: u16,
    pub shelf: u16,
    pub generation: u16,
}

// From (left, top) up to, and without, (right, bottom).
#[repr(C)]
#[derive(Clone, Copy, Debug, PartialEq, Eq)]
pub struct Rectangle {
    pub left: u16,
    pub top: u16,
    pub right: u16,
    pub bottom: u16,
}

// A rectangle and the id that it was issued under: an answer of allocate, and an entry of the lent list.
#[repr(C)]
#[derive(Clone, Copy, Debug, PartialEq, Eq)]
pub struct Allocation {
    pub id: u32,
    pub rectangle: Rectangle,
}

// Why a call was refused, in the order of document 01's table, then in that of document 02's requests: a refusal's number is its discriminant.
#[derive(Clone, Copy, Debug, PartialEq, Eq)]
pub enum Refusal {
    Tables = 1,
    Side = 2,
    Options = 3,
    Small = 4,
    Large = 5,
    NoPlace = 6,
    Filler = 7,
    Items = 8,
    Unknown = 9,
    Stale = 10,
    Unheld = 11,
    Shrink = 12,
    NoAtlas = 13,
    Malformed = 14,
    Long = 15,
    Broken = 16,
    Version = 17,
    Buffer = 18,
    Full = 19,
    NotHeld = 20,
    List = 21,
    Wide = 22,
    Tall = 23,
    Output = 24,
}

// Where the search of one shelf's chain ends.
#[derive(Clone, Copy, Debug, PartialEq, Eq)]
pub enum Pick {
    Exact(u16),
    First(u16),
    Nothing,
}

// The best bucket so far. An exact fit ends the search.
#[derive(Clone, Copy)]
pub struct Best {
    pub waste: u16,
    pub shelf: u16,
    pub bucket: u16,
    pub exact: bool,
}

// The shelves that a merge takes: the first, how many follow it, and the sum of their heights.
#[derive(Clone, Copy)]
pub struct MergeRun {
    pub shelf: u16,
    pub followers: u16,
    pub height: u16,
}

// Buckets being laid: the header, where the next one goes, and the head of the chain so far.
#[derive(Clone, Copy)]
pub struct Laying {
    pub head: Head,
    pub x: u16,
    pub first: u16,
}

// The header and the rectangle that was issued.
#[derive(Clone, Copy)]
pub struct Issued {
    pub head: Head,
    pub allocation: Allocation,
}

// What allocate issued before its entry is in the list, and the place that the entry goes to.
#[derive(Clone, Copy)]
pub struct Entering {
    pub head: Head,
    pub allocation: Allocation,
    pub place: u32,
}

// What a rectangle of a picture shows: the whole atlas, or the used or the free part of a bucket.
#[derive(Clone, Copy, Debug, PartialEq, Eq)]
pub enum Paint {
    Ground,
    Used,
    Free,
}

// A rectangle of a picture, in pixels; (x, y) is its corner nearest to (0, 0).
#[derive(Clone, Copy)]
pub struct Drawn {
    pub x: u16,
    pub y: u16,
    pub width: u16,
    pub height: u16,
    pub paint: Paint,
}

// A replay between two chunks: whether a stop was told; whether an atlas was made, and its header; the offset of the next record, and the first bytes of
// that record, `count` of them, which the last chunk ended with.
#[derive(Clone, Copy)]
pub struct Pause {
    pub over: bool,
    pub made: bool,
    pub offset: u32,
    pub count: usize,
    pub held: [u8; HELD_MOST],
    pub head: Head,
}

// The answer of a feed, with what the next one is fed with.
#[derive(Clone, Copy)]
pub struct Feed {
    pub lines: Result<usize, Refusal>,
    pub pause: Pause,
}
