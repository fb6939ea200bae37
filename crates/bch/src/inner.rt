// For tps, which packs its information itself.
ghost use Rattle.std.specs.Prelude.{◌≡◌, ◌^◌, ◌<◌};
ghost use Rattle.ground.specs.Digits.{digits_of};
ghost use Rattle.bch.specs.Code.{parity};

// The parity of 53 information bits, packed (EN 300 744, 4.6.2.11).
pub fn parity_of(info: u64) -> u64
    requires { info < 2 ^ 53 }
    ensures { result ≡ parity (digits_of 53 info) }
{
    super::remainder::parity_of(info)
}
