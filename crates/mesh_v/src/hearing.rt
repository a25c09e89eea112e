ghost use Rattle.std.specs.Prelude.{◌≡◌, ℕ, ◌∷◌, false, Option, Some, IfOk, OnOk, OnErr};
ghost use Rattle.mesh_base.specs.declared.address.Mac.{Mac};
ghost use Rattle.mesh_model.specs.declared.packet.Head.TheVariants.{Elp};
ghost use Rattle.mesh_model.specs.Routes.AlgorithmV.{answer_to_v, v_answer};
ghost use Rattle.mesh_model.specs.Routes.HearingsV.{heard_v, passes_v};
ghost use Rattle.mesh_model.specs.Routes.Life.{began_wild, is_first};
ghost use Rattle.mesh_model.specs.Routes.Neighbours.{is_up};
ghost use Rattle.mesh_model.specs.Routes.RouteLog.{RouteLog, HeadCame};
ghost use Rattle.mesh_v.specs.Came.{ogm_in};
ghost use Rattle.mesh_v.specs.Hears.{IsFirstHeard, IsHeard, hearing_of, input_of, kept_row, life_before};
ghost use Rattle.mesh_v.specs.Rows.{life_in, still_life};
ghost use Rattle.mesh_v.specs.Tables.{StandsFor, orig_at};
ghost use Rattle.mesh_v.specs.declared.row.LastElp.{LastElp};

use crate::best::is_up_at;
use crate::ogm::OgmCame;
use crate::path::Path;
use crate::row::{LastElp, Orig, elp_in, is_up, life_in};
use crate::v::V;
use crate::writing::write;
use mesh_algo::hearing::{UNHEARD, first_hearing};
use mesh_algo::life::{going_on, meeting, restarted_then};
use mesh_algo::table::{Places, place_of, put, put_near};
use mesh_algo::{Hearing, Life};
use mesh_base::{Mac, Millis, NoMemory};

impl V {
    /// Takes an ELP of an originator over a link of a throughput. It counts where the originator
    /// sent it itself.
    pub(crate) fn hear_elp(
        &mut self,
        now: Millis,
        from: Mac,
        tp: u32,
        orig: Mac,
    ) -> Result<(), NoMemory>
        ensures noted { OnOk result ((me : Mac) (log : RouteLog) (seq interval : ℕ) →
            StandsFor me self.old log →
            StandsFor me self.new (HeadCame now from tp (Elp orig seq interval) ∷ log)) }
        ensures err { OnErr result (self.new ≡ self.old) }
    {
        if orig != from {
            return Ok(());
        }
        let elp = LastElp {
            moment: now,
            throughput: tp,
        };
        let row = Orig {
            life: life_in(&self.orig(from)),
            elp: Some(elp),
        };
        put(&mut self.origs, from, row)?;
        Ok(())
    }

    /// Takes an OGM.
    pub(crate) fn hear_ogm(&mut self, ogm: &OgmCame) -> Result<Hearing, NoMemory>
        ensures noted { OnOk result ((me : Mac) (log : RouteLog) →
            StandsFor me self.old log → StandsFor me self.new (input_of ogm.now ∷ log)) }
        ensures heard { IfOk result (λ hearing. (me : Mac) (log : RouteLog) →
            StandsFor me self.old log →
            hearing ≡ v_answer me (λ k. is_up ogm.now.moment k log) ogm.now.moment ogm.now.from
            ogm.now.link (Some (ogm_in ogm.now)) (heard_v me log)) }
        ensures err { OnErr result (self.new ≡ self.old) }
    {
        let path = place_of(&self.paths, ogm.pair());
        let near = Places {
            orig: place_of(&self.origs, ogm.orig),
            path,
            first: path,
        };
        let orig = self.orig_near(near.orig, ogm.orig);
        if !self.passes(ogm, &orig) {
            return Ok(UNHEARD);
        }
        let lived = lived(ogm.moment, &orig);
        let met = meeting(ogm.moment, ogm.seq, &lived);
        let life = going_on(lived, met);
        let elp = elp_in(&orig);
        let path = self.path_before(ogm, near, &life);
        if met.late || path.heard.has(ogm.seq) {
            self.touch(ogm, near, elp, &life)?;
            return Ok(UNHEARD);
        }
        let restarted = restarted_then(ogm.moment, met, &life);
        let hearing = self.hear_first(ogm, near, elp, restarted, &life, &path)?;
        Ok(hearing)
    }

    // Whether an OGM is heard, by the row of its originator: that is another node, and the sender is
    // up.
    fn passes(&self, ogm: &OgmCame, orig: &Option<Orig>) -> bool
        ensures { (me : Mac) (log : RouteLog) → StandsFor me self.now log →
            orig.now ≡ orig_at (heard_v me log) log ogm.now.orig →
            result ≡ passes_v me (is_up ogm.now.moment ogm.now.from log) (ogm_in ogm.now) }
    {
        ogm.orig != self.me && self.is_sender_up(ogm, orig)
    }

    // Whether the sender of an OGM is up, by the row of its originator or its own.
    fn is_sender_up(&self, ogm: &OgmCame, orig: &Option<Orig>) -> bool
        ensures { (me : Mac) (log : RouteLog) → StandsFor me self.now log →
            orig.now ≡ orig_at (heard_v me log) log ogm.now.orig →
            result ≡ is_up ogm.now.moment ogm.now.from log }
    {
        if ogm.from == ogm.orig {
            is_up(orig, ogm.moment)
        } else {
            is_up_at(&self.origs, ogm.moment, ogm.from)
        }
    }

    // The row of the neighbour, in the originator's life if there is one.
    fn path_before(&self, ogm: &OgmCame, near: Places, life: &Option<Life>) -> Path
        ensures { (me : Mac) (log : RouteLog) (elp : Option LastElp) →
            IsHeard me self.now log ogm.now elp life.now →
            result ≡ kept_row ogm.now.from (life_before me log ogm.now) }
    {
        if life.is_none() {
            return Path::new();
        }
        self.path_near(near.path, ogm.pair()).unwrap_or(Path::new())
    }

    // Notes that an originator was heard, where nothing else is to be noted.
    fn touch(
        &mut self,
        ogm: &OgmCame,
        near: Places,
        elp: Option<LastElp>,
        life: &Option<Life>,
    ) -> Result<(), NoMemory>
        ensures noted { OnOk result ((me : Mac) (log : RouteLog) →
            IsHeard me self.old log ogm.now elp life.now →
            is_first (hearing_of me log ogm.now) (life_before me log ogm.now) ≡ false →
            StandsFor me self.new (input_of ogm.now ∷ log)) }
        ensures err { OnErr result (self.new ≡ self.old) }
    {
        let Some(life) = life else {
            return Ok(());
        };
        let life = life.touched(ogm.moment);
        let row = Orig {
            life: Some(life),
            elp,
        };
        put_near(&mut self.origs, near.orig, ogm.orig, row)?;
        Ok(())
    }

    // Takes the first OGM of its number from its neighbour, which isn't late.
    fn hear_first(
        &mut self,
        ogm: &OgmCame,
        near: Places,
        elp: Option<LastElp>,
        restarted: Option<Millis>,
        life: &Option<Life>,
        path: &Path,
    ) -> Result<Hearing, NoMemory>
        ensures noted { OnOk result ((me : Mac) (log : RouteLog) →
            IsFirstHeard me self.old log ogm.now elp life.now path.now →
            restarted ≡ began_wild (hearing_of me log ogm.now ∷ life_before me log ogm.now) →
            StandsFor me self.new (input_of ogm.now ∷ log)) }
        ensures heard { IfOk result (λ hearing. (me : Mac) (log : RouteLog) →
            IsFirstHeard me self.old log ogm.now elp life.now path.now →
            hearing ≡ answer_to_v ogm.now.flags (hearing_of me log ogm.now)
            (life_before me log ogm.now)) }
        ensures err { OnErr result (self.new ≡ self.old) }
    {
        let value = ogm.throughput.min(ogm.link);
        let row = path.with(ogm.seq, value);
        let forward = write(
            &mut self.origs,
            &mut self.paths,
            ogm,
            near,
            elp,
            restarted,
            life,
            row,
            value,
        )?;
        Ok(first_hearing(ogm.seq, life, forward))
    }
}

// The life of an originator at a moment, by its row.
fn lived(now: Millis, orig: &Option<Orig>) -> Option<Life>
    ensures { result ≡ still_life now (life_in orig.now) }
{
    life_in(orig)?.at(now)
}
