//! Lemmas on the demo's texts, as functions that do nothing: a caller has what they ensure.

ghost use Rattle.std.specs.Prelude.{◌≡◌, ◌≤◌, length, Ok};
ghost use Rattle.demo_rules.specs.DemoTexts.{demo_script, demo_sky};
ghost use Rattle.session_script.specs.Scripts.{script_of};
ghost use Rattle.sky_rules.specs.SkyText.{sky_of};
ghost use Rattle.demo_answers.specs.DemoInput.{demo_plan, demo_steps};
ghost use Rattle.text_rules.specs.declared.limits.TheConstants.{SCRIPT_TEXT_MOST, SKY_TEXT_MOST};

/// The demo's sky text is one: four stripes of 1, 16, 16 and 1 chunks, with an overlap of 65,536 units.
pub fn demo_sky_is_accepted()
    ensures plan { sky_of demo_sky ≡ Ok demo_plan }
    ensures short { length demo_sky ≤ SKY_TEXT_MOST }
{}

/// The demo's script is one: four queries.
pub fn demo_script_is_accepted()
    ensures steps { script_of demo_script ≡ Ok demo_steps }
    ensures short { length demo_script ≤ SCRIPT_TEXT_MOST }
{}
