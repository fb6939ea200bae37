// For the crates above: a stream of the register's outputs made once, and whitening with it.
ghost use Rattle.std.specs.Prelude.{◌≡◌, length};
ghost use Rattle.dispersal.specs.Register.{start};
ghost use Rattle.dispersal.specs.Inner.{stream, xored, Begun};

use super::DvbTEnergyDispersal;

// Whitens bytes where they stand, with a stream of outputs that is as long as they are.
pub fn whiten(outputs: &[u8], bytes: &mut [u8])
    requires { length outputs.now ≡ length bytes.old }
    ensures { bytes.new ≡ xored bytes.old outputs.now }
{
    for (i, byte) in bytes.iter_mut().enumerate() {
        *byte ^= outputs[i];
    }
}

// Whitens bytes into a slice of the same length, with a stream of outputs that is as long as they are. Where they are
// copied and the copy is whitened in place, a payload's packets take two thirds longer (measured).
pub fn whiten_into(outputs: &[u8], bytes: &[u8], out: &mut [u8])
    requires { (length outputs.now ≡ length bytes.now) × (length bytes.now ≡ length out.old) }
    ensures { out.new ≡ xored bytes.now outputs.now }
{
    for (i, byte) in out.iter_mut().enumerate() {
        *byte = bytes[i] ^ outputs[i];
    }
}

// Fills a slice with the register's outputs from its start on, by the register itself.
fn begin_outputs(outputs: &mut [u8])
    ensures { outputs.new ≡ stream (length outputs.old) start }
{
    outputs.fill(0);
    DvbTEnergyDispersal::new().feed_in_place(outputs);
}

// Fills what is behind the first 120 bytes: each byte is the XOR of those 120 and 112 places before it.
fn go_on_with_outputs(outputs: &mut [u8])
    requires { Begun outputs.old }
    ensures { outputs.new ≡ stream (length outputs.old) start }
{
    // By place, since each byte is made of two behind it.
    for i in 120..outputs.len() {
        outputs[i] = outputs[i - 120] ^ outputs[i - 112];
    }
}

// Fills a slice with the register's outputs from its start on, eight a byte.
pub fn fill_outputs(outputs: &mut [u8])
    ensures { outputs.new ≡ stream (length outputs.old) start }
{
    if outputs.len() < 120 {
        begin_outputs(outputs);
        return;
    }
    begin_outputs(&mut outputs[..120]);
    go_on_with_outputs(outputs);
}
