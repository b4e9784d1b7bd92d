ghost use Rattle.std.specs.Prelude.{◌≡◌};

use call_status::Status;
use engine_session::Works;
use kept_build::KeptDevices;
use runner::Runner;
use site_build::Devices;

/// What a call hands back: how it ended, what it was handed, and the engine with which it ended beside its runner.
#[derive(Drop)]
pub struct HandedBack<R: Runner, S, H, K, N, O> {
    pub status: Status,
    pub works: Works<R>,
    pub devices: Devices<S, H, N, O>,
    pub keeper: K,
}

/// What a command without a keeper hands back.
#[derive(Drop)]
pub(crate) struct Returned<R: Runner, S, H, N, O> {
    pub status: Status,
    pub works: Works<R>,
    pub devices: Devices<S, H, N, O>,
}

/// Hands back the engine with its runner, and the devices.
pub(crate) fn hand_back<R: Runner, S, H, N, O>(
    status: Status,
    works: Works<R>,
    devices: Devices<S, H, N, O>,
) -> Returned<R, S, H, N, O>
    ensures status { result.status ≡ status }
    ensures works { result.works ≡ works }
    ensures devices { result.devices ≡ devices }
{
    Returned {
        status,
        works,
        devices,
    }
}

/// Hands back a keeper beside what a command without one hands back.
pub(crate) fn beside<R: Runner, S, H, K, N, O>(
    returned: Returned<R, S, H, N, O>,
    keeper: K,
) -> HandedBack<R, S, H, K, N, O>
    ensures status { result.status ≡ returned.status }
    ensures works { result.works ≡ returned.works }
    ensures devices { result.devices ≡ returned.devices }
    ensures keeper { result.keeper ≡ keeper }
{
    let Returned {
        status,
        works,
        devices,
    } = returned;
    HandedBack {
        status,
        works,
        devices,
        keeper,
    }
}

/// Hands back the engine with its runner, the devices and the keeper.
pub(crate) fn hand_back_kept<R: Runner, S, H, K, N, O>(
    status: Status,
    works: Works<R>,
    devices: KeptDevices<S, H, K, N, O>,
) -> HandedBack<R, S, H, K, N, O>
    ensures status { result.status ≡ status }
    ensures works { result.works ≡ works }
    ensures devices { result.devices ≡ devices.devices }
    ensures keeper { result.keeper ≡ devices.keeper }
{
    let KeptDevices { devices, keeper } = devices;
    beside(hand_back(status, works, devices), keeper)
}
