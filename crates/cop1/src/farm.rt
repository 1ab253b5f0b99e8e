// The receiver, FARM-1.

ghost use Rattle.std.specs.Prelude.{◌≡◌, ◌↔◌, IfOk, IfErr, IsOk};

use crate::fault::CopFault;
use bitflags::Flags;
use clcw::{Clcw, ClcwFlags};
use std::marker::Model;

/// The receiver's state (CCSDS 232.1-B-2, 6.1.2).
#[derive(Clone, Copy, Debug, PartialEq, Eq)]
pub enum FarmMode {
    /// S1: frames are accepted.
    Open,
    /// S2: there was no room on board for a frame; a release opens the receiver again.
    Wait,
    /// S3: a number outside both windows arrived; only Unlock opens the receiver again.
    Lockout,
}

impl FarmMode {
    ghost use Rattle.cop1.specs.Names.{farm_mode_name};

    /// Returns the state's name in the standard.
    pub fn name(self) -> &'static str
        ensures { result.now ≡ farm_mode_name self }
    {
        match self {
            FarmMode::Open => "Open",
            FarmMode::Wait => "Wait",
            FarmMode::Lockout => "Lockout",
        }
    }
}

/// What the receiver does with a Type-AD frame (CCSDS 232.1-B-2, table 6-1).
#[derive(Clone, Copy, Debug, PartialEq, Eq)]
pub enum Verdict {
    /// The expected frame: its data is passed on, and V(R) is incremented.
    Accepted,
    /// In the positive window, ahead of V(R): discarded, and a retransmission is requested.
    Ahead,
    /// The expected frame, without room for it: discarded, and a retransmission is requested.
    NoBuffer,
    /// In the negative window: a repetition, discarded.
    Behind,
    /// Outside both windows: discarded, and the receiver enters Lockout.
    Outside,
    /// Discarded because of the state.
    Discarded,
}

impl Verdict {
    ghost use Rattle.cop1.specs.Names.{verdict_row};

    /// Returns the verdict's name, as it appears in lines.
    pub fn name(self) -> &'static str
        ensures { result.now ≡ (verdict_row self).1 }
    {
        match self {
            Verdict::Accepted => "accepted",
            Verdict::Ahead => "ahead",
            Verdict::NoBuffer => "nobuffer",
            Verdict::Behind => "behind",
            Verdict::Outside => "outside",
            Verdict::Discarded => "discarded",
        }
    }
}

/// Where N(S) lies relative to V(R) (CCSDS 232.1-B-2, 6.1.8).
#[derive(Clone, Copy)]
pub(crate) enum Place {
    Expected,
    InPositiveWindow,
    InNegativeWindow,
    OutsideWindows,
}

/// The fields that determine a receiver (CCSDS 232.1-B-2, 6.1). A node may keep them and continue
/// from them.
#[derive(Clone, Copy, Debug, PartialEq, Eq)]
pub struct FarmFields {
    /// The window width, even, 2 to 254.
    pub width: u8,
    /// V(R), the number of the next frame to be accepted.
    pub vr: u8,
    /// The lockout flag.
    pub lockout: bool,
    /// The wait flag; if it is set, so is the retransmit flag.
    pub wait: bool,
    /// The retransmit flag.
    pub retransmit: bool,
    /// FARM-B, 0 to 3.
    pub farm_b: u8,
}

/// The receiver of one virtual channel, FARM-1 (CCSDS 232.1-B-2, section 6). Its positive and its
/// negative window are each half its width.
#[derive(Clone, Copy)]
pub struct Farm {
    width: u8,
    vr: u8,
    lockout: bool,
    wait: bool,
    retransmit: bool,
    farm_b: u8,
}

impl Model for Farm {
    ghost use Rattle.cop1.specs.Farm.{FarmState};

    ghost Value = { FarmState };

    ghost use Rattle.std.specs.Prelude.{◌≡◌, ◌<◌, true};
    ghost use Rattle.cop1.specs.Farm.{state_of, IsWidth};

    ghost view = { λ f. record {
      width = f.width;
      state = state_of f.lockout f.wait;
      vr = f.vr;
      lockout = f.lockout;
      wait = f.wait;
      retransmit = f.retransmit;
      farm_b = f.farm_b;
    } };

    ghost invariant = { λ f. (f.farm_b < 4) × (f.wait ≡ true → f.retransmit ≡ true) × IsWidth f.width };

    ghost inverse = { λ s. record {
      width = s.width;
      vr = s.vr;
      lockout = s.lockout;
      wait = s.wait;
      retransmit = s.retransmit;
      farm_b = s.farm_b;
    } };
}

impl Farm {
    ghost use Rattle.std.specs.Prelude.{◌<◌, IsTrue};
    ghost use Rattle.clcw.specs.Encoding.{fits};
    ghost use Rattle.cop1.specs.Report.{report_of};
    ghost use Rattle.cop1.specs.FarmFields.{IsFarm, farm_with};
    ghost use Rattle.cop1.specs.Farm.{FlagsAgree};
    ghost use Rattle.cop1.specs.Farm.{IsWidth, new_farm, place_of, verdict_of, farm_step, AdArrives, BdArrives, UnlockArrives, SetVrArrives, BufferReleased};

    /// Creates a receiver in its state Open with all flags 0 and FARM-B 0, which expects the number
    /// `vr` (CCSDS 232.1-B-2, 6.1). Refuses a width that is not an even number from 2 to 254.
    /// Faults: 1 Width.
    pub fn new(width: u8, vr: u8) -> Result<Farm, CopFault>
        ensures new_farm { IfOk result (λ f. f ≡ new_farm width vr) }
        ensures width { IsOk result ↔ IsWidth width }
        ensures fault { IfErr result (λ e. e ≡ CopFault.Width) }
    {
        if width == 0 || width % 2 == 1 {
            return Err(CopFault::Width);
        }
        Ok(Farm {
            width,
            vr,
            lockout: false,
            wait: false,
            retransmit: false,
            farm_b: 0,
        })
    }

    /// Creates the receiver with these fields, which `fields` returned. Refuses fields that no
    /// receiver has.
    /// Faults: 9 State.
    #[inline(always)]
    pub fn restore(fields: FarmFields) -> Result<Farm, CopFault>
        ensures farm { IfOk result (λ f. f ≡ farm_with fields) }
        ensures kept { IsOk result ↔ IsFarm (farm_with fields) }
        ensures fault { IfErr result (λ e. e ≡ CopFault.State) }
    {
        if fields.width == 0
            || fields.width % 2 == 1
            || fields.farm_b > 3
            || (fields.wait && !fields.retransmit)
        {
            return Err(CopFault::State);
        }
        Ok(Farm {
            width: fields.width,
            vr: fields.vr,
            lockout: fields.lockout,
            wait: fields.wait,
            retransmit: fields.retransmit,
            farm_b: fields.farm_b,
        })
    }

    /// Returns the receiver's current fields.
    #[inline(always)]
    pub fn fields(&self) -> FarmFields
        ensures fields { farm_with result ≡ self.now }
        ensures holds { IsFarm self.now }
    {
        FarmFields {
            width: self.width,
            vr: self.vr,
            lockout: self.lockout,
            wait: self.wait,
            retransmit: self.retransmit,
            farm_b: self.farm_b,
        }
    }

    /// Processes a Type-AD frame with N(S) = `n`; `buffer_free` states whether there is room on
    /// board for its data (CCSDS 232.1-B-2, table 6-1). Returns the verdict. If it is `Accepted`,
    /// the caller passes the data on.
    #[inline(always)]
    pub fn ad(&mut self, n: u8, buffer_free: bool) -> Verdict
        ensures verdict { result ≡ verdict_of self.old n buffer_free }
        ensures state { self.new ≡ farm_step self.old (AdArrives n buffer_free) }
        ensures width { self.new.width ≡ self.old.width }
        ensures farm_b { self.new.farm_b ≡ self.old.farm_b }
    {
        if self.lockout {
            return Verdict::Discarded;
        }
        match self.place(n) {
            Place::Expected if self.wait => Verdict::Discarded,
            Place::Expected if !buffer_free => {
                self.retransmit = true;
                self.wait = true;
                Verdict::NoBuffer
            }
            Place::Expected => {
                self.vr = self.vr.wrapping_add(1);
                self.retransmit = false;
                Verdict::Accepted
            }
            Place::InPositiveWindow if self.wait => Verdict::Discarded,
            Place::InPositiveWindow => {
                self.retransmit = true;
                Verdict::Ahead
            }
            Place::InNegativeWindow if self.wait => Verdict::Discarded,
            Place::InNegativeWindow => Verdict::Behind,
            Place::OutsideWindows => {
                self.lockout = true;
                Verdict::Outside
            }
        }
    }

    #[inline(always)]
    fn place(&self, n: u8) -> Place
        ensures { result ≡ place_of self.now n }
    {
        let half = self.width / 2;
        let ahead = n.wrapping_sub(self.vr);
        if ahead == 0 {
            Place::Expected
        } else if ahead < half {
            Place::InPositiveWindow
        } else if ahead > 255 - half {
            Place::InNegativeWindow
        } else {
            Place::OutsideWindows
        }
    }

    /// Counts a Type-BD frame in FARM-B (CCSDS 232.1-B-2, table 6-1). The caller passes its data on
    /// in every state.
    pub fn bd(&mut self)
        ensures { self.new ≡ farm_step self.old BdArrives }
    {
        self.count_type_b();
    }

    fn count_type_b(&mut self)
        ensures { self.new ≡ farm_step self.old BdArrives }
    {
        self.farm_b = (self.farm_b + 1) % 4;
    }

    /// Executes the control command Unlock: counts it in FARM-B, opens the receiver and sets all
    /// flags to 0 (CCSDS 232.1-B-2, table 6-1).
    pub fn unlock(&mut self)
        ensures { self.new ≡ farm_step self.old UnlockArrives }
    {
        self.count_type_b();
        self.lockout = false;
        self.wait = false;
        self.retransmit = false;
    }

    /// Executes the control command Set V(R): counts it in FARM-B. Unless the receiver is in
    /// Lockout, it is then open and expects `vr` (CCSDS 232.1-B-2, table 6-1).
    pub fn set_vr(&mut self, vr: u8)
        ensures { self.new ≡ farm_step self.old (SetVrArrives vr) }
    {
        self.count_type_b();
        if !self.lockout {
            self.vr = vr;
            self.wait = false;
            self.retransmit = false;
        }
    }

    /// Records that there is room on board again (CCSDS 232.1-B-2, table 6-1).
    pub fn released(&mut self)
        ensures { self.new ≡ farm_step self.old BufferReleased }
    {
        self.wait = false;
    }

    /// The control word that reports the current state of the receiver, for the virtual channel
    /// `vcid`, below 64 (CCSDS 232.0-B-4, 4.2). The flags for the radio channel and bit lock are 0.
    pub fn report(&self, vcid: u8) -> Clcw
        requires { vcid < 64 }
        ensures report { result ≡ report_of self.now vcid }
        ensures fits { IsTrue (fits result) }
    {
        let mut flags = ClcwFlags::empty();
        flags.set(ClcwFlags::LOCKOUT, self.lockout);
        flags.set(ClcwFlags::WAIT, self.wait);
        flags.set(ClcwFlags::RETRANSMIT, self.retransmit);
        Clcw {
            status: 0,
            vcid,
            flags,
            farm_b: self.farm_b,
            value: self.vr,
        }
    }

    /// Returns the state, which follows from the lockout flag and the wait flag (CCSDS 232.1-B-2,
    /// 6.1). If the wait flag is set, so is the retransmit flag.
    #[inline(always)]
    pub fn state(&self) -> FarmMode
        ensures state { result ≡ self.now.state }
        ensures flags { FlagsAgree self.now }
    {
        if self.lockout {
            FarmMode::Lockout
        } else if self.wait {
            FarmMode::Wait
        } else {
            FarmMode::Open
        }
    }

    /// Returns V(R), the number of the next frame to be accepted (CCSDS 232.1-B-2, 6.1).
    pub fn vr(&self) -> u8
        ensures { result ≡ self.now.vr }
    {
        self.vr
    }

    /// Returns the lockout flag (CCSDS 232.1-B-2, 6.1).
    pub fn lockout(&self) -> bool
        ensures { result ≡ self.now.lockout }
    {
        self.lockout
    }

    /// Returns the wait flag (CCSDS 232.1-B-2, 6.1).
    pub fn wait(&self) -> bool
        ensures { result ≡ self.now.wait }
    {
        self.wait
    }

    /// Returns the retransmit flag (CCSDS 232.1-B-2, 6.1).
    pub fn retransmit(&self) -> bool
        ensures { result ≡ self.now.retransmit }
    {
        self.retransmit
    }

    /// Returns FARM-B, the count of Type-B frames modulo 4 (CCSDS 232.1-B-2, 6.1).
    pub fn farm_b(&self) -> u8
        ensures { result ≡ self.now.farm_b }
    {
        self.farm_b
    }
}
