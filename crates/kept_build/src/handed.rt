use command_words::Work;
use site_build::Devices;

/// A build's work, and the file that keeps its rows from run to run.
#[derive(Drop)]
pub struct KeptWork<'a> {
    pub work: &'a Work,
    pub file: &'a str,
}

/// The devices of a call, and the keeper of its rows.
#[derive(Drop)]
pub struct KeptDevices<S, H, K, N, O> {
    pub devices: Devices<S, H, N, O>,
    pub keeper: K,
}
