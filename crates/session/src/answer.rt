// The answer of a session: how many frames there are, and the frames.
ghost use Rattle.std.specs.Prelude.{◌≡◌, ◌<◌};
ghost use Rattle.session.specs.Session.{without_frames, sent};

// Unused places are 0.
// Kept: the C interface: a count beside 13 places, as `mf_session` writes them, and no heap.
#[derive(Clone, Copy, Debug, PartialEq, Eq)]
pub struct Session {
    pub count: u8,
    pub frames: [u32; 13],
}

// No frame.
pub fn without_frames() -> Session
    ensures { result ≡ without_frames }
{
    Session {
        count: 0,
        frames: [0; 13],
    }
}

impl Session {
    // Internal: one frame more.
    #[tactic(auto, unfolding(crate::specs::Session::sent))]
    pub(crate) fn sent(self, frame: u32) -> Session
        requires { self.count < 13 }
        ensures { result ≡ sent self frame }
    {
        let mut frames = self.frames;
        frames[self.count as usize] = frame;
        Session {
            count: self.count + 1,
            frames,
        }
    }
}
