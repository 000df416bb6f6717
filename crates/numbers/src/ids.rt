// Document 01's module 3: ids. "Bits 0 to 11 bucket, 12 to 23 the item count modulo 4,096, 24 to 31 generation, which wraps."
// A generation is 8 bits in a number of 16.
ghost use Rattle.std.specs.Prelude.{◌≡◌, ◌<◌};
ghost use Rattle.rules.specs.Ids.{id_of, id_bucket, id_item, id_generation, next_generation};

pub fn id_of(bucket: u16, items: u16, generation: u16) -> u32
    requires { (bucket < 4096) × (generation < 256) }
    ensures { result ≡ id_of bucket items generation }
{
    bucket as u32 + items as u32 % 4096 * 4096 + generation as u32 * 16777216
}

pub fn id_bucket(id: u32) -> u16
    ensures { result ≡ id_bucket id }
{
    (id % 4096) as u16
}

pub fn id_item(id: u32) -> u16
    ensures { result ≡ id_item id }
{
    (id / 4096 % 4096) as u16
}

pub fn id_generation(id: u32) -> u16
    ensures { result ≡ id_generation id }
{
    (id / 16777216) as u16
}

// "that generation plus 1": 0 comes after 255. A table's number may hold more than 8 bits until it is tested, 65,535 too.
pub fn next_generation(generation: u16) -> u16
    ensures { result ≡ next_generation generation }
{
    generation.wrapping_add(1) % 256
}
