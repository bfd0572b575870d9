// Images of volumes with directory caches.

ghost use Rattle.std.specs.Prelude.{◌≡◌, ◌≢◌};
ghost use Rattle.adf_memory_types.specs.CachedCalls.{is_cached_image};

use adf_blocks::Cause;
use adf_check::Fault;
use adf_uncached::is_cached;
use adf_volume::is_image_len;

/// Whether an image of an allowed size is that of a volume with directory caches, by its type.
pub fn is_cached_image(image: &[u8]) -> bool
    ensures { result ≡ is_cached_image image.now }
{
    is_cached(image) && is_image_len(image.len())
}

/// The block that is told of a fault: 0 if memory ran out.
pub fn told_block(fault: Fault) -> u32
    ensures memory { fault.cause ≡ Cause.NoMemory → result ≡ 0 }
    ensures fault { fault.cause ≢ Cause.NoMemory → result ≡ fault.block }
{
    match fault.cause {
        Cause::NoMemory => 0,
        _ => fault.block,
    }
}
