// The version of the library. include/sinewhopa.h has the same numbers, for the version that a host was compiled with.
ghost use Rattle.std.specs.Prelude.{◌≡◌};
ghost use Rattle.sinewhopa.specs.Version.{version};

const MAJOR: u16 = 1;

const MINOR: u16 = 7;

// The version of the library that is linked: major * 256 + minor.
#[unsafe(no_mangle)]
pub extern "C" fn sinewhopa_version() -> u16
    ensures { result ≡ version }
{
    MAJOR * 256 + MINOR
}
