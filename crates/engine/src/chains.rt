// Chains of 96 coefficients of four bytes each.
ghost use Rattle.std.specs.Prelude.{◌≡◌, length};
ghost use Rattle.rules.specs.Chains.{is_chain};
ghost use Rattle.rules.specs.Calls.{coefficients};

// Whether every coefficient of a chain of n cells is within the limit, and 0 past the count.
pub(crate) fn is_chain(limit: u32, n: u8, chain: &[i32]) -> bool
    requires { length chain.now ≡ 96 }
    ensures { result ≡ is_chain limit n (coefficients chain.now) }
{
    chain.iter().enumerate().all(|(i, z)| {
        if i < n as usize {
            z.unsigned_abs() <= limit
        } else {
            *z == 0
        }
    })
}

// One chain becomes another: by a loop, since `copy_from_slice` would ask for `memmove` of the C library.
pub(crate) fn copy_chain(to: &mut [i32], from: &[i32])
    requires { length to.old ≡ length from.now }
    ensures { to.new ≡ from.now }
{
    for i in 0..from.len() {
        to[i] = from[i];
    }
}
