use crate::caller::Caller;
use crate::kernel::Kernel;
use zk_cells::has_news_of;
use zk_services::service_of;
use zk_worker::MOST_ATTEMPTS;

impl Caller {
    /// Whether a service that one of its next attempts asks has had an entry since the caller's last turn there, or is a signal
    /// that is raised.
    ///
    /// It costs one load for each attempt, and no turn. It is a hint, of use after a step that answered `NotYet`: without news a
    /// further one would answer that again. Nothing is claimed of it.
    pub fn has_news(&self, kernel: &Kernel) -> bool {
        let Some(passes) = &self.passes else {
            return false;
        };
        for index in 0..MOST_ATTEMPTS {
            let Some(step) = self.player.ahead(kernel.scenario(), index) else {
                return false;
            };
            if has_news_of(kernel.cells(), passes, service_of(&step)) {
                return true;
            }
        }
        false
    }
}
