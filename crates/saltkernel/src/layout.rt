// The layout.
// `include/generate` makes the number of the layout, and this text, from the structs and from the parameters and
// results of all functions. The archive has a function that carries the number in its name, so a program that calls
// SALT_LAYOUT links only with an archive of this layout.
ghost use Rattle.std.specs.Prelude.{◌≡◌};

// The number of the layout.
#[unsafe(no_mangle)]
pub extern "C" fn salt_layout_7188a159() -> u32
    ensures { result ≡ 1904779609 }
{
    1904779609
}
