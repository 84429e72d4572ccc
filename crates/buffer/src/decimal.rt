// A number in decimal, put into a lent buffer.
ghost use Rattle.std.specs.Fmt.{decimal};
ghost use Rattle.maths.specs.Buffers.{Fits, Put};

use crate::{put, put_all, put_two};
use itoa::{Buffer, Integer};

// n at a place, with a minus where it is below 0, and the place after it.
pub fn put_decimal<I: Integer>(out: &mut [u8], at: usize, n: I) -> usize
    requires { Fits out.old at (I.text n) }
    ensures { Put out.old at (I.text n) result out.new }
{
    put_all(out, at, Buffer::new().format(n).as_bytes())
}

// The same of a number that has one or two digits mostly: these go straight to their places.
#[inline]
pub fn put_short(out: &mut [u8], at: usize, n: u32) -> usize
    requires { Fits out.old at (decimal n) }
    ensures { Put out.old at (decimal n) result out.new }
{
    if n < 10 {
        return put(out, at, b'0' + n as u8);
    }
    if n < 100 {
        return put_two(out, at, b'0' + (n / 10) as u8, b'0' + (n % 10) as u8);
    }
    put_decimal(out, at, n)
}
