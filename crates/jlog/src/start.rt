//! Where a log goes on in a mounted image: judged once, for all that ask.

ghost use Rattle.std.specs.Prelude.{◌≡◌, Ok, Err, IfOk, IfErr};
ghost use Rattle.jmount.specs.Mounts.{IsMountOf};
ghost use Rattle.jlog.specs.OneProof.{IsMounted, one_proof};
ghost use Rattle.jlog.specs.Resuming.{resumes};

use crate::fault::SessionFault;
use crate::resuming::{page_fits, resume_at};
use jmount::Mounted;
use jnode::Order;
use jscan::{Geometry, Page};
use std::marker::PhantomData;

/// The flash that is written, and the page by which files are cut.
#[derive(Clone, Copy, Debug, PartialEq, Eq)]
pub struct Flash {
    pub geometry: Geometry,
    pub blocks: u32,
    pub page: Page,
}

/// Where a log goes on in a mounted image. It is in `E`'s order, of the flash's geometry, and may
/// be gone on from there.
#[derive(Drop)]
pub struct Start<'m, 'a, E: Order> {
    mounted: &'m Mounted<'a>,
    flash: Flash,
    address: u32,
    order: PhantomData<E>,
    ghost mount: { IsMounted E.order flash mounted.now } by { one_proof E.order flash mounted.now },
    ghost goes_on: { resumes E.order flash mounted.now ≡ Ok address },
}

impl<'m, 'a, E: Order> Start<'m, 'a, E> {
    ghost use Rattle.jlog.specs.View.{mount_of, flash_of_start, address_of};

    /// Where a log goes on in a mounted image on a flash: at the block from which on it is blank.
    /// The image is in `E`'s order and of the geometry that it was mounted with. Takes no memory.
    ///
    /// # Errors
    /// `ReadOnly` and `Geometry` as [`resume_at`] answers them, `Geometry` also where [`page_fits`]
    /// is false.
    pub fn of(mounted: &'m Mounted<'a>, flash: Flash) -> Result<Start<'m, 'a, E>, SessionFault>
        requires { IsMountOf E.order flash.geometry.block mounted.now }
        ensures mount { IfOk result (λ start. mount_of start ≡ mounted.now) }
        ensures flash { IfOk result (λ start. flash_of_start start ≡ flash) }
        ensures address { IfOk result
            (λ start. resumes E.order flash mounted.now ≡ Ok (address_of start)) }
        ensures fault { IfErr result (λ fault. resumes E.order flash mounted.now ≡ Err fault) }
    {
        let address = resume_at::<E>(mounted, flash.geometry, flash.blocks)?;
        if !page_fits(flash.geometry, flash.page) {
            return Err(SessionFault::Geometry);
        }
        Ok(Start {
            mounted,
            flash,
            address,
            order: PhantomData,
        })
    }

    /// The mounted image.
    pub fn mounted(&self) -> &'m Mounted<'a>
        ensures same { result.now ≡ mount_of self.now }
        ensures mount { IsMountOf E.order (flash_of_start self.now).geometry.block result.now }
    {
        self.mounted
    }

    /// The flash that is written, and the page by which files are cut.
    pub fn flash(&self) -> Flash
        ensures { result ≡ flash_of_start self.now }
    {
        self.flash
    }

    /// The address where writing goes on.
    pub fn address(&self) -> u32
        ensures same { result ≡ address_of self.now }
        ensures goes_on { resumes E.order (flash_of_start self.now) (mount_of self.now)
            ≡ Ok result }
    {
        self.address
    }
}
