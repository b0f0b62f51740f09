//! What the proof of an assertion of a database may cite: the assertions before it.

ghost use Rattle.proofcheck.specs.Reports.{frame_below, place_from};

use crate::labels::Places;
use mmsyntax::{Frame, Label};
use stepcheck::Frames;

/// The assertions before one of a database: the frames of all, and the place that their labels have to stay below.
#[derive(Drop)]
pub(crate) struct Earlier<'a> {
    pub(crate) frames: &'a [Frame],
    pub(crate) places: &'a Places<'a>,
    pub(crate) limit: usize,
}

impl Frames for Earlier<'_> {
    ghost frames = { λ s label. frame_below s.frames.now s.limit (place_from 0 label s.places.now) };

    fn frame(&self, label: &Label) -> Option<&Frame> {
        match self.places.find(label.as_slice()) {
            None => None,
            Some(place) => {
                if place < self.limit {
                    self.frames.get(place)
                } else {
                    None
                }
            }
        }
    }
}
