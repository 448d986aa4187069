//! Which openings the grounds have.

use crate::checks::expect_at;
use crate::grounds::{AROUND, FLASH, Fronts, Ground, SPOILED, fronts_of};
use crate::placed::has_openings;
use crate::sessions::{Rows, openings_in};
use byteorder::{BigEndian, LittleEndian};
use jnode::Order;
use jpacked::NodeForms;
use jrests::Opening;
use std::alloc::Global;
use std::test::Fail;

/// Whether an opening is one of these.
fn is_in(rows: Rows, opening: &Opening) -> bool {
    match rows {
        Rows::All => true,
        Rows::Rests => opening.place > 0,
        Rows::Blank => opening.place == 0,
    }
}

/// Whether these are the openings of a ground that are to be found.
fn are_all(found: &[Opening], ground: &Ground, fronts: &Fronts, rows: Rows) -> bool {
    let mut met = 0usize;
    for block in 0..ground.blocks {
        if let Some(place) = ground.opening(fronts, block) {
            let opening = Opening { block, place };
            if is_in(rows, &opening) {
                if found.get(met) != Some(&opening) {
                    return false;
                }
                met = met.wrapping_add(1);
            }
        }
    }
    met == found.len()
}

fn are_found<E: Order>(
    alloc: Global,
    ground: &Ground,
    base: NodeForms,
    rows: Rows,
) -> Result<bool, Fail> {
    let flash = ground.flash(FLASH);
    if !has_openings(flash) {
        return Err(Fail::from("no openings"));
    }
    let fronts = fronts_of::<E>(alloc, base).ok_or("no base")?;
    let image = ground.image(alloc, &fronts, flash.geometry.block)?;
    let found = openings_in::<E>(alloc, &image, flash, rows)?;
    Ok(are_all(&found, ground, &fronts, rows))
}

#[test]
fn openings_of_the_grounds(rt: HostRuntime) -> Result<(), Fail> {
    for ground in [AROUND, SPOILED] {
        for base in [NodeForms::Packed, NodeForms::Own] {
            for rows in [Rows::All, Rows::Rests, Rows::Blank] {
                let little = are_found::<LittleEndian>(rt.alloc(), &ground, base, rows)?;
                let big = are_found::<BigEndian>(rt.alloc(), &ground, base, rows)?;
                expect_at(&rt, little && big, (ground, base, rows));
            }
        }
    }
    Ok(())
}
