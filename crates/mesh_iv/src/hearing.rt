ghost use Rattle.std.specs.Prelude.{◌≡◌, ℕ, ◌∷◌, max, false, Option, Some, IfOk, OnOk, OnErr};
ghost use Rattle.mesh_base.specs.declared.address.Mac.{Mac};
ghost use Rattle.mesh_model.specs.Routes.AlgorithmIv.{answer_to, iv_answer};
ghost use Rattle.mesh_model.specs.Routes.Hearings.{heard};
ghost use Rattle.mesh_model.specs.Routes.Life.{began_wild, is_first};
ghost use Rattle.mesh_model.specs.Routes.Ogm.{passes};
ghost use Rattle.mesh_model.specs.Routes.Quality.{echo_quality};
ghost use Rattle.mesh_model.specs.Routes.RouteLog.{RouteLog};
ghost use Rattle.mesh_iv.specs.Came.{ogm_in};
ghost use Rattle.mesh_iv.specs.Hears.{IsFirstHeard, IsHeard, hearing_of, input_of, kept_row, life_before};
ghost use Rattle.mesh_iv.specs.Tables.{StandsFor};
ghost use Rattle.mesh_iv.specs.Writing.{IsKept};
ghost use Rattle.mesh_algo.specs.LifeRows.{newest_by};
ghost use Rattle.mesh_algo.specs.declared.life.Life.{Life};

use crate::iv::Iv;
use crate::ogm::OgmCame;
use crate::path::Path;
use crate::quality::transmit_quality;
use crate::row::{Orig, best_kept, life_in};
use crate::writing::write;
use mesh_algo::hearing::{UNHEARD, first_hearing};
use mesh_algo::life::{going_on, meeting, newest_of, restarted_then};
use mesh_algo::table::{Places, put_near};
use mesh_algo::{Best, Hearing, Life, Pair};
use mesh_base::{Millis, NoMemory};

impl Iv {
    /// Takes an OGM.
    pub(crate) fn hear_ogm(&mut self, ogm: &OgmCame) -> Result<Hearing, NoMemory>
        ensures noted { OnOk result ((me : Mac) (log : RouteLog) (tp : ℕ) →
            StandsFor me self.old log → StandsFor me self.new (input_of ogm.now tp ∷ log)) }
        ensures heard { IfOk result (λ hearing. (me : Mac) (log : RouteLog) →
            StandsFor me self.old log →
            let echo = echo_quality me ogm.now.from log in
            let ogm_came = Some (ogm_in ogm.now) in
            hearing
            ≡ iv_answer me ogm.now.moment ogm.now.from ogm_came (heard me log) echo) }
        ensures err { OnErr result (self.new ≡ self.old) }
    {
        if !ogm.passes(self.me) {
            self.note_echo(ogm)?;
            return Ok(UNHEARD);
        }
        let near = self.places(ogm);
        let row = self.orig_near(near.orig, ogm.moment, ogm.orig);
        let kept = best_kept(&row);
        let lived = life_in(&row);
        let met = meeting(ogm.moment, ogm.seq, &lived);
        let life = going_on(lived, met);
        let path = self.path_before(ogm, near, &life);
        if met.late || path.heard.has(ogm.seq) {
            self.touch(ogm, near, &life, kept)?;
            return Ok(UNHEARD);
        }
        let restarted = restarted_then(ogm.moment, met, &life);
        let hearing = self.hear_first(ogm, near, restarted, &life, kept, &path)?;
        Ok(hearing)
    }

    // Notes an own OGM that came back.
    fn note_echo(&mut self, ogm: &OgmCame) -> Result<(), NoMemory>
        ensures noted { OnOk result ((me : Mac) (log : RouteLog) (tp : ℕ) →
            StandsFor me self.old log → passes me (ogm_in ogm.now) ≡ false →
            StandsFor me self.new (input_of ogm.now tp ∷ log)) }
        ensures err { OnErr result (self.new ≡ self.old) }
    {
        if !ogm.is_echo(self.me, self.sent) {
            return Ok(());
        }
        let pair = Pair {
            orig: self.me,
            from: ogm.from,
        };
        let near = self.guesses.of(ogm.from).echo as usize;
        let mut path = self.path_near(near, pair).unwrap_or(Path::new());
        path.heard.see(ogm.seq);
        put_near(&mut self.paths, near, pair, path)?;
        Ok(())
    }

    // The row of the neighbour, in the originator's life if there is one.
    fn path_before(&self, ogm: &OgmCame, near: Places, life: &Option<Life>) -> Path
        ensures { (me : Mac) (log : RouteLog) → IsHeard me self.now log ogm.now life.now →
            result ≡ kept_row ogm.now.from (life_before me log ogm.now) }
    {
        if life.is_none() {
            return Path::new();
        }
        self.path_near(near.path, ogm.pair()).unwrap_or(Path::new())
    }

    // Notes that an originator was heard, where nothing else is to be noted.
    fn touch(
        &mut self,
        ogm: &OgmCame,
        near: Places,
        life: &Option<Life>,
        best: Option<Best>,
    ) -> Result<(), NoMemory>
        ensures noted { OnOk result ((me : Mac) (log : RouteLog) (tp : ℕ) →
            IsHeard me self.old log ogm.now life.now →
            IsKept ogm.now life.now best self.old.paths →
            is_first (hearing_of me log ogm.now) (life_before me log ogm.now) ≡ false →
            StandsFor me self.new (input_of ogm.now tp ∷ log)) }
        ensures err { OnErr result (self.new ≡ self.old) }
    {
        let Some(life) = life else {
            return Ok(());
        };
        let life = life.touched(ogm.moment);
        put_near(&mut self.origs, near.orig, ogm.orig, Orig { life, best })?;
        Ok(())
    }

    // Takes the first OGM of its number from its neighbour, which isn't late.
    fn hear_first(
        &mut self,
        ogm: &OgmCame,
        near: Places,
        restarted: Option<Millis>,
        life: &Option<Life>,
        kept: Option<Best>,
        path: &Path,
    ) -> Result<Hearing, NoMemory>
        ensures noted { OnOk result ((me : Mac) (log : RouteLog) (tp : ℕ) →
            IsFirstHeard me self.old log ogm.now life.now path.now →
            IsKept ogm.now life.now kept self.old.paths →
            restarted ≡ began_wild (hearing_of me log ogm.now ∷ life_before me log ogm.now) →
            StandsFor me self.new (input_of ogm.now tp ∷ log)) }
        ensures heard { IfOk result (λ hearing. (me : Mac) (log : RouteLog) →
            IsFirstHeard me self.old log ogm.now life.now path.now →
            IsKept ogm.now life.now kept self.old.paths →
            hearing ≡ answer_to (hearing_of me log ogm.now) (life_before me log ogm.now)) }
        ensures err { OnErr result (self.new ≡ self.old) }
    {
        let newest = newest_of(life).max(ogm.seq);
        let value = self.value(ogm, path, newest);
        let row = path.with(ogm.seq, value);
        let forward = write(
            &mut self.origs,
            &mut self.paths,
            ogm,
            near,
            restarted,
            life,
            kept,
            row,
            value,
        )?;
        Ok(first_hearing(ogm.seq, life, forward))
    }

    // The value of an OGM, whose number is the newest or below it.
    fn value(&self, ogm: &OgmCame, path: &Path, newest: u32) -> u8
        ensures { (me : Mac) (log : RouteLog) (row : Option Life) →
            IsFirstHeard me self.now log ogm.now row path.now →
            newest ≡ max (newest_by row) ogm.now.seq →
            result ≡ (hearing_of me log ogm.now).value }
    {
        let echo = self.echo_quality(ogm.from);
        if ogm.from != ogm.orig {
            return transmit_quality(ogm.tq, echo, self.receive_quality(ogm.moment, ogm.from));
        }
        let mut heard = path.heard;
        heard.see(ogm.seq);
        transmit_quality(ogm.tq, echo, heard.count_to(newest))
    }
}
