// The size of a finite f64 as a whole number of its smallest units.
ghost use Rattle.std.specs.Prelude.{◌%◌, ◌<◌};
ghost use Rattle.float.specs.Parts.{Parted};

// digits * 2^power times 2^-1074.
#[derive(Clone, Copy)]
pub struct Parts {
    pub digits: u64,
    pub power: u64,
}

// The size of the finite f64 that has the bits n. Its sign is n's top bit.
pub fn parts_of(n: u64) -> Parts
    requires { n % 0x8000_0000_0000_0000 < 0x7ff0_0000_0000_0000 }
    ensures { Parted n result.digits result.power }
{
    let field = n % 0x8000_0000_0000_0000 / 0x10_0000_0000_0000;
    let low = n % 0x10_0000_0000_0000;
    if field == 0 {
        Parts {
            digits: low,
            power: 0,
        }
    } else {
        Parts {
            digits: 0x10_0000_0000_0000 + low,
            power: field - 1,
        }
    }
}
