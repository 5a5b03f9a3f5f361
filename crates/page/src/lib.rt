// What every edition of the unit does with one page: the fields of an address and of the page's two words,
// the length test and the sum.

#![tactic(auto)]

ghost use Rattle.std.specs.Prelude.{◌≡◌, ◌<◌};
ghost use Rattle.page.specs.Fields.{block_of, page_of};
ghost use Rattle.page.specs.Length.{length_error};
ghost use Rattle.page.specs.Sum.{byte_of};

// VA 12:6
pub fn block_of(va: u16) -> u16
    ensures { (result ≡ block_of va) × (result < 128) }
{
    va / 64 % 128
}

// VA 15:13
pub fn page_of(va: u16) -> u16
    ensures { (result ≡ page_of va) × (result < 8) }
{
    va / 8192 % 8
}

// rule 4: the block lies beyond the page's length. With ED 1 every bit of both numbers is flipped, so that the greater becomes the lesser.
pub fn length_error(pdr: u16, block: u16) -> bool
    ensures { result ≡ length_error pdr block }
{
    let length = pdr / 256 % 128;
    let flip = pdr / 8 % 2 * 0o177777;
    (length ^ flip) < (block ^ flip)
}

// rule 5: the byte of the manual's sum
pub fn byte_of(par: u16, va: u16) -> u32
    ensures { (result ≡ byte_of par va) × (result < 0o1000000) }
{
    let block = (par % 4096 + block_of(va)) % 4096;
    u32::from(block) * 64 + u32::from(va % 64)
}
