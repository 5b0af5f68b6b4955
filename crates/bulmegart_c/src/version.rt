// Which version the archive is of, so that a caller can ask whether his header is its own.
ghost use Rattle.std.specs.Prelude.{◌≡◌};
ghost use Rattle.bulmegart_version.specs.Version.{version};

#[unsafe(no_mangle)]
pub extern "C" fn bulmegart_version() -> u32
    ensures { result ≡ version }
{
    bulmegart_version::version::bulmegart_version()
}
