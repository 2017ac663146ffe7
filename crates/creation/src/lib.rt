// Making a module from its port, image and thresholds.
#![tactic(auto)]

ghost use Rattle.std.specs.Prelude.{◌≡◌};
ghost use Rattle.creation.specs.Creation.{fresh, sized, checked, make};

use alarms::Alarms;
use answers::{Answer, Refusal};
use bus::Bus;
use differing::Differing;
use jobs::Job;
use monitor::Monitor;
use nvr::image::checksum_right;
use thresholds::{ordered, thresholds_of};
use xenpak::{Module, Outcome};

// Off, with this store, counted beside a copy of zeros, and these thresholds; all else at zero.
#[tactic(auto, unfolding(store::specs::Bytes::zeros))]
fn fresh(port: u8, store: [u8; 256], thresholds: [u8; 40]) -> Module
    ensures { result ≡ fresh port store thresholds }
{
    let differing = Differing::of(&store);
    Module {
        store,
        job: Job::IDLE,
        copy: [0; 256],
        differing,
        powered: false,
        port,
        thresholds,
        command: 0,
        bus: Bus::ZERO,
        alarms: Alarms::NONE,
        monitor: Monitor::NONE,
    }
}

// The bytes as an array, or the refusal of their length.
fn sized<const N: usize>(bytes: &[u8], why: Refusal) -> Answer<[u8; N]>
    ensures { result ≡ sized N bytes.now why }
{
    <[u8; N]>::try_from(bytes).map_err(|_| why)
}

// A fresh module, or the lowest number that refuses it.
fn checked(port: u8, image: &[u8], thresholds: &[u8]) -> Answer<Module>
    ensures { result ≡ checked port image.now thresholds.now }
{
    let low = port <= 31;
    if !low {
        return Err(Refusal::Port);
    }
    let store = sized::<256>(image, Refusal::ImageLength)?;
    let codes = sized::<40>(thresholds, Refusal::ThresholdsLength)?;
    if !checksum_right(&store) {
        return Err(Refusal::Checksum);
    }
    if !ordered(thresholds_of(&codes)) {
        return Err(Refusal::ThresholdOrder);
    }
    Ok(fresh(port, store, codes))
}

// A fresh module; refused by the lowest number that applies, the blank one: port 0, all bytes zero, off.
#[tactic(auto, unfolding(crate::specs::Creation::make, store::specs::Bytes::zeros))]
pub fn make(port: u8, image: &[u8], thresholds: &[u8]) -> Outcome<Answer<()>>
    ensures { result ≡ make port image.now thresholds.now }
{
    match checked(port, image, thresholds) {
        Ok(next) => Outcome {
            next,
            answer: Ok(()),
        },
        Err(why) => Outcome {
            next: fresh(0, [0; 256], [0; 40]),
            answer: Err(why),
        },
    }
}
