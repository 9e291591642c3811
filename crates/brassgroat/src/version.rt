// The export that gives the face's version.
ghost use Rattle.std.specs.Prelude.{◌≡◌};
ghost use Rattle.plain_answers.specs.Answers.{version};

use plain_answers::version;

#[unsafe(no_mangle)]
pub extern "C" fn bg_version() -> u32
    ensures { result ≡ version }
{
    version()
}
