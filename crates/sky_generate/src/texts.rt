//! The two texts of the demo.

ghost use Rattle.std.specs.Prelude.{◌≡◌};
ghost use Rattle.demo_rules.specs.DemoTexts.{demo_script, demo_sky};

/// Returns the demo's sky text. Does not allocate.
pub fn demo_sky() -> &'static [u8]
    ensures { result.now ≡ demo_sky }
{
    b"overlap 65536\nstripe -268435472 1 8 4\nstripe -134217728 16 4 4\nstripe 0 16 4 4\nstripe 134217728 1 8 4\n"
}

/// Returns the demo's script. Does not allocate.
pub fn demo_script() -> &'static [u8]
    ensures { result.now ≡ demo_script }
{
    b"SELECT COUNT(*),SUM(flux),AVG(flux),MIN(z),MAX(z) FROM Object\nSELECT kind,COUNT(*),MAX(flux) FROM Object WHERE z>=0 GROUP BY kind\nSELECT objectId,flux FROM Object WHERE area_band(-1000000,1000000) ORDER BY flux DESC LIMIT 5\nSELECT a.objectId,b.objectId FROM Object a,Object b WHERE chord2(a,b)<=4294967296 AND a.objectId<b.objectId LIMIT 5\n"
}
